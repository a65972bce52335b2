// A step of a run: the next state, whether the run goes on, and the text, which is the first `length` bytes of a buffer that was lent.
// A slice of the buffer would keep it lent while the run writes.
#![tactic(auto)]

ghost use Rattle.std.specs.Prelude.{◌≡◌, true, false};

#[derive(Clone, Copy)]
pub struct Turn<S> {
    pub state: S,
    pub more: bool,
    pub length: usize,
}

// Two names for a bool: a caller would else write true or false.
impl<S> Turn<S> {
    // The run goes on from the state.
    pub fn continues(state: S, length: usize) -> Turn<S>
        ensures { result ≡ record { state = state; more = true; length = length } }
    {
        Turn {
            state,
            more: true,
            length,
        }
    }

    // The run ends with the state.
    pub fn ends(state: S, length: usize) -> Turn<S>
        ensures { result ≡ record { state = state; more = false; length = length } }
    {
        Turn {
            state,
            more: false,
            length,
        }
    }
}
