ghost use Rattle.std.specs.Prelude.{◌≡◌, ◌≤◌, List, ℕ, Err};
ghost use Rattle.wasm_below.specs.declared.error.Error.{Error};
ghost use Rattle.wasm_below.specs.Source.{Reader, offset_of, end_of, Takes, IsAhead};
ghost use Rattle.wasm_operators.specs.Next.{all_operators, collecting, scalar_operators};
ghost use Rattle.wasm_operators.specs.Reading.{State, Finishes, StopsRead, StopsRun};

use wasm_below::BinaryReader;

/// Shows that a reader is within its data, by peeking at the next byte.
pub fn within(reader: &BinaryReader<'_>)
    ensures { offset_of reader.now ≤ end_of reader.now }
{
    let _ = reader.peek();
}

/// States that after a read the reader is within the same data.
pub fn taken_within()
    ensures { (old new : Reader) (text : List ℕ) → Takes old new text → offset_of old ≤ end_of old
        → (offset_of old ≤ offset_of new) × (offset_of new ≤ end_of new) × (end_of new ≡ end_of old) }
{}

/// States that an error is within the rest, or at its end.
pub fn refusals_ahead()
    ensures read { (e : Error) (s : State) → StopsRead all_operators e s
        → offset_of s.reader ≤ end_of s.reader → IsAhead s.reader e.offset }
    ensures scalar_read { (e : Error) (s : State) → StopsRead scalar_operators e s
        → offset_of s.reader ≤ end_of s.reader → IsAhead s.reader e.offset }
    ensures finish { (e : Error) (s : State) → Finishes {X = Unit {0}} (Err e) s
        → offset_of s.reader ≤ end_of s.reader → IsAhead s.reader e.offset }
    ensures reads { (e : Error) (s : State) → StopsRun collecting e s
        → offset_of s.reader ≤ end_of s.reader → IsAhead s.reader e.offset }
    ensures visits { (e : Error) (s : State) → StopsRun all_operators e s
        → offset_of s.reader ≤ end_of s.reader → IsAhead s.reader e.offset }
    ensures scalar_visits { (e : Error) (s : State) → StopsRun scalar_operators e s
        → offset_of s.reader ≤ end_of s.reader → IsAhead s.reader e.offset }
{}
