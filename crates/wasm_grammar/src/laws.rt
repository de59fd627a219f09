//! Laws of trees and frames. `T` is what operators carry. The frame rules are `frames_after` and
//! `frames_along`, from the frame of the expression.
ghost use Rattle.std.specs.Prelude.{◌≡◌, ◌↔◌, List, [], ◌∷◌, ◌++◌, IsSome, length, replicate};
ghost use Rattle.wasm_grammar.specs.declared.frame_kind.FrameKind.{FrameKind};
ghost use Rattle.wasm_grammar.specs.Role.{Role, ends};
ghost use Rattle.wasm_grammar.specs.Tree.{Expression, walk};
ghost use Rattle.wasm_grammar.specs.Frames.{frames_after, frames_along};
ghost use Rattle.wasm_grammar.specs.Beginning.{IsWalk, BeginsWalk};
ghost use Rattle.wasm_grammar.specs.OpenPath.{OpenPath};

pub fn one_tree<T>()
    ensures { (first second : Expression T) → walk first ≡ walk second → first ≡ second }
{}

/// States that the frame rules accept roles and close every frame if and only if the roles are a
/// walk.
pub fn rules_accept_walks<T>()
    ensures { (roles : List (Role T)) →
        (frames_along (FrameKind.Block ∷ []) roles ≡ Some []) ↔ IsWalk roles }
{}

/// States that the frame rules accept roles if and only if these are a prefix of a walk.
pub fn rules_run_beginnings<T>()
    ensures { (roles : List (Role T)) →
        IsSome (frames_along (FrameKind.Block ∷ []) roles) ↔ BeginsWalk roles }
{}

/// States that accepted roles become a walk by one `end` for each open frame.
pub fn ends_complete<T>()
    ensures { (roles : List (Role T)) (frames : List FrameKind) →
        frames_along (FrameKind.Block ∷ []) roles ≡ Some frames →
        IsWalk (roles ++ replicate (length frames) ends) }
{}

pub fn step_keeps_path<T>()
    ensures { (roles : List (Role T)) (frames : List FrameKind) (role : Role T) (next : List FrameKind) →
        OpenPath roles frames → frames_after frames role ≡ Some next →
        OpenPath (roles ++ role ∷ []) next }
{}

pub fn path_determines_frames<T>()
    ensures { (roles : List (Role T)) (first second : List FrameKind) →
        OpenPath roles first → OpenPath roles second → first ≡ second }
{}

pub fn path_is_run<T>()
    ensures { (roles : List (Role T)) (frames : List FrameKind) →
        OpenPath roles frames ↔ (frames_along (FrameKind.Block ∷ []) roles ≡ Some frames) }
{}
