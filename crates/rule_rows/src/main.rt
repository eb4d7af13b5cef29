//! Rows of the rules, each with what is made.
//!
//! - `RULE MODE TEXT` gives whether the rule makes `after` of `before`, two definitions of the
//!   description. Without `after`, `before` has no instance. The leading lambdas of the two bind
//!   the variables in scope. The mode ends in `+` where the body gives what the term gives.
//! - `ty_beta TERM`, `beta TERM`, `app_let TERM` and `app_case TERM` give what the rule makes of a
//!   term in the notation of row_notation. The scene has a definition `g0` of the type
//!   `Unsigned 8`, and no variables are in scope.
//! - `trials RULE TIMES` tries a rule of flow so many times on a term of 10,000 nodes that has no
//!   instance of it, and gives how often there was none. It is there to be timed: bench/rules.sh
//!   does.
#![tactic(auto)]

mod functions;
mod names;
mod programs;
mod scopes;
mod speed;
mod sums;
mod tried;

use chw_base::Or;
use chw_terms::Rule;
use functions::put_made;
use names::{mode_named, rule_named};
use programs::program_in;
use row_tables::{Unread, print_rows};
use speed::put_trials;
use std::alloc::Global;
use std::io;
use tried::put_compared;

fn main(rt: HostRuntime) -> io::Result<()> {
    print_rows(&rt, answer)
}

// Writes what a call gives.
fn answer(alloc: Global, call: &str, text: &str, out: &mut Vec<u8>) -> Result<(), Or<Unread>> {
    match call {
        "ty_beta" => put_made(alloc, Rule::TyBeta, text, out),
        "beta" => put_made(alloc, Rule::Beta, text, out),
        "app_let" => put_made(alloc, Rule::AppLet, text, out),
        "app_case" => put_made(alloc, Rule::AppCase, text, out),
        "trials" => put_trials(alloc, text, out),
        _ => put_rule(alloc, call, text, out),
    }
}

// Writes what the rule of this name makes of a row's term, beside what the row says.
fn put_rule(alloc: Global, call: &str, text: &str, out: &mut Vec<u8>) -> Result<(), Or<Unread>> {
    let Some((place, description)) = text.split_once(' ') else {
        return Err(Or::Fault(Unread));
    };
    let rule = rule_named(call)?;
    let mode = mode_named(place.trim_end_matches('+'))?;
    let program = program_in(alloc, description)?;
    let outcome = put_compared(alloc, &program, rule, mode, place.ends_with('+'), out);
    drop(program);
    outcome
}
