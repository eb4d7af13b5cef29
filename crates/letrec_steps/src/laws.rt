//! The laws, each as the contract of a call that does nothing.
ghost use Rattle.letrec_steps.specs.LetrecLaws.{FirstOnIsFirst, SideIsFirstBelow};
ghost use Rattle.letrec_steps.specs.LetrecLaws.{QuietLetrecHasNone, VariableHasNone};
ghost use Rattle.letrec_steps.specs.LetrecLaws.{BindingBetween, QuietFront, QuietOfFront, SideIsPut};
ghost use Rattle.letrec_steps.specs.Many.{StepsInTopRun, StepsOfTopRun};
ghost use Rattle.letrec_steps.specs.StateLaws.{FirstInTopIsFirst, NoneInTop, NoneBeforeNext};
ghost use Rattle.letrec_steps.specs.StateLaws.{SideIsFirst, LetrecIsFirst, QuietTopHasNone};
ghost use Rattle.letrec_steps.specs.StateLaws.{SoughtHasNoneBefore, TopIsSought};
ghost use Rattle.letrec_steps.specs.StateLaws.{PutKeepsOrigins, PutKeepsNoneBefore};
ghost use Rattle.letrec_steps.specs.StateLaws.{TopIsPutIn, TopPutBack, StepInTopLeads};
ghost use Rattle.letrec_steps.specs.TopLaws.{PlacesAreBelowTop, BelowTopIsPlace, TopIsTyped};
ghost use Rattle.letrec_steps.specs.TopLaws.{TopIsPut, BelowTopIsPut, SideInTopIsPut};

/// What is first on a term is first there and below it. Of a letrec on which no rule has an
/// instance, and behind right sides that are quiet, what is first on a right side is first.
pub fn first_below_letrecs()
    ensures term { FirstOnIsFirst }
    ensures side { SideIsFirstBelow }
{}

/// A letrec has no step where all right sides are quiet and its body has none. A variable has none.
pub fn none_below_letrecs()
    ensures letrec { QuietLetrecHasNone }
    ensures variable { VariableHasNone }
{}

/// The right side between two groups of bindings: its number, the quiet ones before it, and the
/// letrec with another one in its place.
pub fn sides_between_groups()
    ensures binding { BindingBetween }
    ensures quiet { QuietFront }
    ensures front { QuietOfFront }
    ensures put { SideIsPut }
{}

/// The active places of a made definition are those of the term below its leading lambdas. That
/// term is typed where the body is.
pub fn places_below_tops()
    ensures below { PlacesAreBelowTop }
    ensures active { BelowTopIsPlace }
    ensures typed { TopIsTyped }
{}

/// Another term below the leading lambdas stands there as the first did. A term that is put below
/// it is put in it.
pub fn tops_are_put()
    ensures top { TopIsPut }
    ensures below { BelowTopIsPut }
    ensures side { SideInTopIsPut }
{}

/// What is first below the leading lambdas of a made definition is the first step of the state,
/// where no made definition before it has a step.
pub fn first_steps_in_tops()
    ensures below { FirstInTopIsFirst }
    ensures side { SideIsFirst }
    ensures letrec { LetrecIsFirst }
{}

/// A made definition has no step where the term below its leading lambdas has none.
pub fn no_steps_in_tops()
    ensures below { NoneInTop }
    ensures letrec { QuietTopHasNone }
    ensures next { NoneBeforeNext }
{}

/// A search that goes on from a place of a made definition finds no step before that definition.
/// Where there is none, a search may go on from the term below its leading lambdas.
pub fn searches_from_tops()
    ensures before { SoughtHasNoneBefore }
    ensures sought { TopIsSought }
{}

/// A step below the leading lambdas of a made definition leads to the state with the changed term
/// there.
pub fn tops_after_steps()
    ensures origins { PutKeepsOrigins }
    ensures before { PutKeepsNoneBefore }
    ensures top { TopIsPutIn }
    ensures back { TopPutBack }
    ensures leads { StepInTopLeads }
{}

/// Many first steps at the term below the leading lambdas, and below that term, are a run of states.
/// It leads to the state with the last term there.
pub fn many_steps_in_tops()
    ensures put { StepsInTopRun }
    ensures top { StepsOfTopRun }
{}
