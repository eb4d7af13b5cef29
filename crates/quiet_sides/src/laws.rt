//! The laws, each as the contract of a call that does nothing.
ghost use Rattle.quiet_sides.specs.Laws.{QuietSidesHaveNoStep, QuietPlacesHaveNoStep, QuietSidesArePassed};

/// No rule has an instance on a quiet right side, or at an active place below it; nor at a quiet place or below it, nor where the path
/// goes through a quiet right side of a letrec.
pub fn quiet_sides_have_no_step()
    ensures side { QuietSidesHaveNoStep }
    ensures place { QuietPlacesHaveNoStep }
    ensures letrec { QuietSidesArePassed }
{}
