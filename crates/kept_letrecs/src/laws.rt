//! The laws, each as the contract of a call that does nothing.
ghost use Rattle.kept_letrecs.specs.Laws.{BareLetrecs, NoFlat, NoDead, NoInline, RestingLetrecs, ReachedAfterSide, ReachedAfterJoin, RestAfterSide, RestAfterJoin, QuietRenamed, QuietAfterSide, QuietAfterJoin};

/// FLAT, DEAD and INLINE alone act on a letrec without arguments.
pub fn bare_letrecs()
    ensures { BareLetrecs }
{}

/// What keeps each of these rules from a letrec, and what keeps all rules from it.
pub fn resting_letrecs()
    ensures flat { NoFlat }
    ensures dead { NoDead }
    ensures inline { NoInline }
    ensures rest { RestingLetrecs }
{}

/// Bindings stay reached where a right side changes and the variables that occur in it still do.
pub fn reached_after_side()
    ensures { ReachedAfterSide }
{}

/// Bindings stay reached where a letrec that is a right side joins.
pub fn reached_after_join()
    ensures { ReachedAfterJoin }
{}

/// A letrec stays at rest where a right side changes, and where one becomes a letrec that joins.
pub fn rest_kept()
    ensures side { RestAfterSide }
    ensures join { RestAfterJoin }
{}

/// A quiet term stays quiet where its variables are renamed.
pub fn quiet_renamed()
    ensures { QuietRenamed }
{}

/// The right sides before one that changes, or that joins, stay quiet.
pub fn quiet_sides_kept()
    ensures side { QuietAfterSide }
    ensures join { QuietAfterJoin }
{}
