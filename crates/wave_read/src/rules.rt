//! The rules on codes, widths and times.
ghost use Rattle.std.specs.Prelude.{◌≡◌, ◌↔◌, List, map, slice_index_or};
ghost use Rattle.std.specs.Prelude.{IsTrue, IfOk, IfSome, IfNone};
ghost use Rattle.std.specs.List.{AllByRecursion};
ghost use Rattle.chw_base.specs.Outcome.{IfFault};
ghost use Rattle.name_tables.specs.Names.{AreDistinct};
ghost use Rattle.wave_text.specs.Faults.{IsBackAt, IsTwiceAt};
ghost use Rattle.wave_read.specs.Rules.{BreaksAt, Keeps, OfTable, place_in, var_in};
ghost use Rattle.wave_read.specs.Shown.{change_of, times_of, variable_of};
ghost use Rattle.wave_read.specs.declared.source.Changed.{Changed};
ghost use Rattle.wave_text.specs.VcdText.{Rise, all_changes, codes_of};

use crate::codes::Codes;
use crate::source::{Changed, Declared, Moment};
use crate::times::Times;
use chw_base::{NoMemory, Or};
use name_tables::Declared as Names;
use std::alloc::Global;

/// A rule on changes.
#[derive(Clone, Copy)]
pub enum Rule {
    /// The code is that of a variable.
    Code,
    /// There are as many bits as the variable has.
    Width,
}

/// The codes of the variables, and their widths.
#[derive(Drop)]
pub struct Table<'a> {
    codes: Codes<'a>,
    widths: Vec<u32>,
}

/// The codes of the variables. A fault is where a code is declared again.
fn codes_in<'a>(alloc: Global, declared: &[Declared<'a>]) -> Result<Names<'a>, Or<u32>>
    ensures codes { IfOk result (λ codes. codes ≡ codes_of (map variable_of declared.now)) }
    ensures distinct { IfOk result (λ _. AreDistinct (codes_of (map variable_of declared.now))) }
    ensures fault { IfFault result (IsTwiceAt (map variable_of declared.now)) }
{
    let mut codes = Names::new(alloc);
    for it in declared {
        if !codes.declare(it.code)? {
            return Err(Or::Fault(it.at));
        }
    }
    Ok(codes)
}

/// The widths of the variables.
fn widths_in(alloc: Global, declared: &[Declared]) -> Result<Vec<u32>, NoMemory>
    ensures { IfOk result (λ v. v.items ≡ map (λ it. it.width) (map variable_of declared.now)) }
{
    let mut widths = Vec::with_capacity(alloc, declared.len())?;
    for it in declared {
        widths.push(it.width)?;
    }
    Ok(widths)
}

/// The table of the variables. A fault is where a code is declared again.
pub fn table_of<'a>(alloc: Global, declared: &[Declared<'a>]) -> Result<Table<'a>, Or<u32>>
    ensures table { IfOk result (OfTable (map variable_of declared.now)) }
    ensures distinct { IfOk result (λ _. AreDistinct (codes_of (map variable_of declared.now))) }
    ensures fault { IfFault result (IsTwiceAt (map variable_of declared.now)) }
{
    let names = codes_in(alloc, declared)?;
    let codes = Codes::of(alloc, names)?;
    let widths = widths_in(alloc, declared)?;
    Ok(Table { codes, widths })
}

impl<'a> Table<'a> {
    /// The number of the variable of a code, or 0 where there is none.
    pub fn var_of(&self, code: &[u8]) -> u32
        ensures { result ≡ var_in self.now code.now }
    {
        match self.codes.find(code) {
            Some(place) => place,
            None => 0,
        }
    }

    /// The width of the variable of a number, or 0 where there is none.
    pub fn width_at(&self, var: u32) -> u32
        ensures { result ≡ slice_index_or self.now.widths.items var 0 }
    {
        match self.widths.get(var as usize) {
            Some(width) => *width,
            None => 0,
        }
    }

    /// Whether the change keeps the rule.
    fn keeps(&self, rule: Rule, change: &Changed) -> bool
        ensures { IsTrue result ↔ Keeps rule self.now (change_of change.now) }
    {
        match rule {
            Rule::Code => self.codes.find(change.code).is_some(),
            Rule::Width => {
                change.digits.len() == self.width_at(self.var_of(change.code)) as usize
            }
        }
    }

    /// Where the first of the changes breaks the rule.
    fn broken_at(&self, rule: Rule, changes: &[Changed]) -> Option<u32>
        ensures some { IfSome result (BreaksAt rule self.now (map change_of changes.now)) }
        ensures none { IfNone result
            (AllByRecursion (Keeps rule self.now) (map change_of changes.now)) }
    {
        for change in changes {
            if !self.keeps(rule, change) {
                return Some(place_in(rule, change));
            }
        }
        None
    }

    /// Where the first of the changes of all times breaks the rule.
    pub fn break_of(&self, rule: Rule, times: &Times) -> Option<u32>
        ensures some { IfSome result (BreaksAt rule self.now (all_changes times.now)) }
        ensures none { IfNone result
            (AllByRecursion (Keeps rule self.now) (all_changes times.now)) }
    {
        let (_, changes) = times.parts();
        self.broken_at(rule, changes)
    }
}

/// Where a change breaks the rule.
fn place_in(rule: Rule, change: &Changed) -> u32
    ensures { result ≡ place_in rule (change_of change.now) }
{
    match rule {
        Rule::Code => change.code_at,
        Rule::Width => change.at,
    }
}

/// Where the first of these stands that isn't greater than the one before, whatever the changes.
fn back_among(moments: &[Moment]) -> Option<u32>
    ensures some { (changes : List Changed)
        → IfSome result (IsBackAt (times_of moments.now changes)) }
    ensures none { (changes : List Changed)
        → IfNone result (Rise (times_of moments.now changes)) }
{
    for k in 1..moments.len() {
        let moment = moments[k];
        if moment.time <= moments[k - 1].time {
            return Some(moment.at);
        }
    }
    None
}

/// Where the first time stands that isn't greater than the one before.
pub fn back_at(times: &Times) -> Option<u32>
    ensures some { IfSome result (IsBackAt times.now) }
    ensures none { IfNone result (Rise times.now) }
{
    let (moments, _) = times.parts();
    back_among(moments)
}
