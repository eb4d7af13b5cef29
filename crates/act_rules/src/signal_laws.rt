//! Laws of the meaning of functions on signals that are joined, each as the contract of a call that does nothing.
ghost use Rattle.act_rules.specs.SignalLaws.{ApPureActs, FmapPureActs, FmapFmapActs, FmapApActs, ApValueActs, ApFmapActs, ApApActs, JoinsAct};

use chw_typing::laws::typed_is_sound;

/// A function on a signal acts so where one of the two is of one value.
pub fn values_act()
    ensures functions { ApPureActs }
    ensures signals { FmapPureActs }
    ensures arguments { ApValueActs }
{
    typed_is_sound();
}

/// A function on what others give acts so as one function.
pub fn composed_acts()
    ensures maps { FmapFmapActs }
    ensures calls { FmapApActs }
    ensures called_maps { ApFmapActs }
    ensures called_calls { ApApActs }
{
    typed_is_sound();
}

/// What the rule on functions on signals makes of a term acts so.
pub fn joins_act()
    ensures { JoinsAct }
{
    typed_is_sound();
}
