//! Worked examples, each as the contract of a call that does nothing.
ghost use Rattle.carrying.specs.Examples.{CounterShows, JustCarries, JustOfCounter, SameDataMove};

/// A counter shows its bits at an event and carries none, and its sample carries them; `Just` carries a tag and the bits of its field,
/// and on a counter it holds none. What makes the same data value at two events may still carry no bits.
pub fn of_carrying()
    ensures counter { CounterShows }
    ensures just { JustCarries }
    ensures moving { JustOfCounter }
    ensures same_data { SameDataMove }
{}
