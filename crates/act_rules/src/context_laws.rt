//! The laws, each as the contract of a call that does nothing.
ghost use Rattle.act_rules.specs.ContextLaws.{PlugActs, OpeningGives};

use chw_typing::laws::typed_is_sound;

/// A typed term with a part that acts as the one in its place acts as the term.
pub fn plug_acts()
    ensures { PlugActs }
{
    typed_is_sound();
}

/// A definition with its first parameters written out gives nothing that the definition doesn't.
pub fn opening_gives()
    ensures { OpeningGives }
{
    typed_is_sound();
}
