ghost use Rattle.std.specs.Prelude.{◌≡◌, ◌≢◌, ℕ, List, [], ◌∷◌, ◌++◌, Some, Ok};
ghost use Rattle.wasm_below.specs.declared.error.Error.{Error};
ghost use Rattle.wasm_below.specs.Fault.{DeterminesRefusal};
ghost use Rattle.wasm_below.specs.Sequence.{PrefixCode};
ghost use Rattle.wasm_below.specs.Source.{Source, Reader, source_of};
ghost use Rattle.wasm_operators.specs.Expression.{Placed, EncodesExpression};
ghost use Rattle.wasm_operators.specs.MainTheorem.{ReadsTree, ReadsBeginning};
ghost use Rattle.wasm_operators.specs.Next.{all_operators, collecting};
ghost use Rattle.wasm_operators.specs.Reading.{State};
ghost use Rattle.wasm_operators.specs.Body.{EncodesBody, OpensBody, StopsBody};
ghost use Rattle.wasm_operators.specs.Locals.{Declaration, EncodesDeclaration, EncodesLocals, DeclarationFault, LocalsFault, NextFault, RefusesLocals, IsPastLocals, Locals, LocalsLeft, OpensLocals, StepsLocals, HasStepped, all_left};

use wasm_below::Message;

/// States that no encoding of a declaration, or of locals, is a proper prefix of another, and each
/// has one value.
pub fn declarations()
    ensures one { PrefixCode EncodesDeclaration }
    ensures locals { PrefixCode EncodesLocals }
{}

/// States that the errors of declarations and of locals are determined.
pub fn refusals()
    ensures one { DeterminesRefusal DeclarationFault }
    ensures next { (total : ℕ) → DeterminesRefusal (NextFault total) }
    ensures locals { DeterminesRefusal LocalsFault }
{}

/// States that bytes encode at most one body.
pub fn one_body()
    ensures { (s : Source) (declarations others : List Declaration) (first second : Placed)
        → EncodesBody s declarations first → EncodesBody s others second
        → (declarations ≡ others) × (first ≡ second) }
{}

/// States that a body is locals followed by an expression.
pub fn past_locals()
    ensures body { (body r : Reader) (declarations : List Declaration) (placed : Placed)
        → IsPastLocals declarations body r → EncodesExpression (source_of r) placed
        → EncodesBody (source_of body) declarations placed }
    ensures expression { (body r : Reader) (declarations others : List Declaration) (placed : Placed)
        → IsPastLocals declarations body r → EncodesBody (source_of body) others placed
        → (others ≡ declarations) × EncodesExpression (source_of r) placed }
{}

/// States that if a body that `OpensBody` opens is read or visited to its end, its bytes encode a
/// body, and if that stops at an error, `StopsBody` holds.
pub fn opened_bodies()
    ensures whole { (body : Reader) (opened new : State) (placed : Placed)
        → OpensBody (Ok opened) body → ReadsTree [] opened new placed
        → (declarations : List Declaration) × EncodesBody (source_of body) declarations placed }
    ensures expression { (body : Reader) (opened : State) (declarations : List Declaration) (placed : Placed)
        → OpensBody (Ok opened) body → EncodesBody (source_of body) declarations placed
        → EncodesExpression (source_of opened.reader) placed }
    ensures stopped { (e : Error) (body : Reader) (opened new : State) (placed : Placed) → OpensBody (Ok opened) body
        → ReadsBeginning collecting [] e opened new placed → StopsBody e body placed }
    ensures stopped_visits { (e : Error) (body : Reader) (opened new : State) (placed : Placed) → OpensBody (Ok opened) body
        → ReadsBeginning all_operators [] e opened new placed → StopsBody e body placed }
{}

/// States that if the locals are in error, the bytes encode no body, and that reading locals does
/// not allocate.
pub fn refused_locals()
    ensures none { (e : Error) (body : Reader) (declarations : List Declaration) (placed : Placed)
        → RefusesLocals e body → ¬ EncodesBody (source_of body) declarations placed }
    ensures stopped { (e : Error) (body : Reader) → RefusesLocals e body → StopsBody e body [] }
    ensures memory { (e : Error) (body : Reader) → RefusesLocals e body → e.message ≢ Message.OutOfMemory }
{}

/// States how steps of an iterator over locals follow one another.
pub fn steps_of_locals()
    ensures first { (body : Reader) (unread : Locals) → OpensLocals (Ok unread) body → HasStepped [] body (all_left unread) }
    ensures next { (declarations : List Declaration) (d : Declaration) (body : Reader) (old new : LocalsLeft)
        → HasStepped declarations body old → StepsLocals (Some (Ok d)) old new
        → HasStepped (declarations ++ d ∷ []) body new }
{}

/// States that bytes in error encode no body, and determine the operators read and the error,
/// unless allocation fails.
pub fn stopped_bodies()
    ensures none { (e : Error) (body : Reader) (placed whole : Placed) (declarations : List Declaration)
        → e.message ≢ Message.OutOfMemory → StopsBody e body placed
        → ¬ EncodesBody (source_of body) declarations whole }
    ensures same { (d e : Error) (body : Reader) (first second : Placed)
        → d.message ≢ Message.OutOfMemory → e.message ≢ Message.OutOfMemory
        → StopsBody d body first → StopsBody e body second
        → (first ≡ second) × (d.message ≡ e.message) × (d.offset ≡ e.offset) }
{}
