//! Laws of terms that act as others, each as the contract of a call that does nothing.
ghost use Rattle.acts.specs.Laws.{FewerTurnsAskLess, SameTypesAct, DataAct, StreamsAct, InputsAct, TypedTermsAct, PutTypeActs, PutTermsAct, EtaActs, ActsGives, ChainGives};

use chw_typing::laws::typed_is_sound;

/// What acts so for a number of turns does for fewer.
pub fn fewer_turns_ask_less()
    ensures { FewerTurnsAskLess }
{}

/// What acts so at a closed type does at each that is the same up to naturals.
pub fn same_types_act()
    ensures { SameTypesAct }
{
    typed_is_sound();
}

/// Data values, streams of them, and ports that are made of streams act as themselves.
pub fn data_act()
    ensures values { DataAct }
    ensures streams { StreamsAct }
    ensures inputs { InputsAct }
{
    typed_is_sound();
}

/// Every typed term acts as itself, where its variables and its made definitions do.
pub fn typed_terms_act()
    ensures { TypedTermsAct }
{
    typed_is_sound();
}

/// A type may be put into a typed term, or stand in its environment.
pub fn put_type_acts()
    ensures { PutTypeActs }
{
    typed_is_sound();
}

/// Terms may be put for the variables of a typed term, or their thunks stand in its environment.
pub fn put_terms_act()
    ensures { PutTermsAct }
{
    typed_is_sound();
}

/// A function with its first parameters written out acts as the function.
pub fn eta_acts()
    ensures { EtaActs }
{
    typed_is_sound();
}

/// What acts as a term gives nothing that the term doesn't; nor does the first of a chain of terms, each of which acts as the next, give
/// what the last one doesn't.
pub fn acts_gives()
    ensures one { ActsGives }
    ensures chain { ChainGives }
{
    typed_is_sound();
}
