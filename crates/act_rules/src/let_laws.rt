//! Laws of the meaning of rules on groups of bindings, each as the contract of a call that does nothing.
ghost use Rattle.act_rules.specs.LetLaws.{LetInLetActs, LetInSideActs, DeadActs, InlineActs};

use chw_typing::laws::typed_is_sound;

/// A letrec that is the body or a right side of a letrec acts so joined with it.
pub fn joined_lets_act()
    ensures bodies { LetInLetActs }
    ensures sides { LetInSideActs }
{
    typed_is_sound();
}

/// A letrec acts so without the bindings that its body doesn't reach.
pub fn dead_acts()
    ensures { DeadActs }
{
    typed_is_sound();
}

/// A letrec acts so with a right side put for its name, in which the name doesn't occur.
pub fn inline_acts()
    ensures { InlineActs }
{
    typed_is_sound();
}
