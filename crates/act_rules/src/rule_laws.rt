//! Laws of the meaning of rules, each as the contract of a call that does nothing.
ghost use Rattle.act_rules.specs.RuleLaws.{TypeBetaActs, BetaActs, LetAppActs, LetTypeAppActs, CaseLetActs};

use chw_typing::laws::typed_is_sound;

/// A type lambda on a type acts so with the type put into its body.
pub fn type_beta_acts()
    ensures { TypeBetaActs }
{
    typed_is_sound();
}

/// A lambda on an argument acts so with its variable bound to the argument.
pub fn beta_acts()
    ensures { BetaActs }
{
    typed_is_sound();
}

/// A letrec on an argument or on a type acts so with the argument inside.
pub fn app_let_acts()
    ensures terms { LetAppActs }
    ensures types { LetTypeAppActs }
{
    typed_is_sound();
}

/// A case of a letrec acts so with the case inside.
pub fn case_let_acts()
    ensures { CaseLetActs }
{
    typed_is_sound();
}
