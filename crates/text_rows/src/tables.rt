//! Tables of names: where names are found that were declared or bound.
use crate::names::put_found;
use chw_base::{Name, NoMemory, Or};
use name_tables::{Declared, Scope};
use row_tables::{Unread, put, put_number, words_of};
use std::alloc::Global;

/// Declares names, writes whether each is new and how many there are then, and seeks each one after
/// a `?`.
pub fn put_names(alloc: Global, text: &str, out: &mut Vec<u8>) -> Result<(), Or<Unread>> {
    let words = words_of(alloc, text)?;
    let outcome = put_declared(alloc, words.as_slice(), out);
    drop(words);
    Ok(outcome?)
}

fn put_declared(alloc: Global, words: &[Name], out: &mut Vec<u8>) -> Result<(), NoMemory> {
    let mut declared = Declared::new(alloc);
    let outcome = put_each(&mut declared, words, out);
    drop(declared);
    outcome
}

fn put_each<'t>(
    declared: &mut Declared<'t>,
    words: &'t [Name],
    out: &mut Vec<u8>,
) -> Result<(), NoMemory> {
    for word in words {
        put_name(declared, word.as_slice(), out)?;
    }
    Ok(())
}

// Declares a name, or seeks it.
fn put_name<'t>(
    declared: &mut Declared<'t>,
    word: &'t [u8],
    out: &mut Vec<u8>,
) -> Result<(), NoMemory> {
    put_comma(out)?;
    match word {
        [b'?', name @ ..] => put_found(out, "at ", declared.find(name)),
        name => {
            let is_new = declared.declare(name)?;
            put_number(out, if is_new { "new " } else { "old " }, declared.len())
        }
    }
}

// Separates an answer from the one before it.
fn put_comma(out: &mut Vec<u8>) -> Result<(), NoMemory> {
    put(out, if out.is_empty() { "" } else { ", " })
}

/// Binds and unbinds names, and seeks each one after a `?`.
pub fn put_binders(alloc: Global, text: &str, out: &mut Vec<u8>) -> Result<(), Or<Unread>> {
    let mut scope = Scope::new(alloc);
    let outcome = put_scoped(&mut scope, text, out);
    drop(scope);
    outcome
}

fn put_scoped<'t>(
    scope: &mut Scope<'t>,
    text: &'t str,
    out: &mut Vec<u8>,
) -> Result<(), Or<Unread>> {
    for word in text.split(' ') {
        put_binder(scope, word, out)?;
    }
    Ok(())
}

// Binds a name, unbinds names, or writes what is found of them.
fn put_binder<'t>(
    scope: &mut Scope<'t>,
    word: &'t str,
    out: &mut Vec<u8>,
) -> Result<(), Or<Unread>> {
    if let Some(name) = word.strip_prefix('?') {
        put_comma(out)?;
        Ok(put_found(out, "", scope.find(name.as_bytes()))?)
    } else if let Some(count) = word.strip_prefix('-') {
        unbind(scope, count)
    } else if word == "#" {
        put_comma(out)?;
        Ok(put_number(out, "open ", scope.len())?)
    } else {
        Ok(scope.bind(word.as_bytes())?)
    }
}

// Unbinds the last name, or as many as the count says.
fn unbind(scope: &mut Scope<'_>, count: &str) -> Result<(), Or<Unread>> {
    if count.is_empty() {
        scope.unbind();
        return Ok(());
    }
    match count.parse::<usize>() {
        Ok(count) => Ok(scope.unbind_all(count)),
        Err(_) => Err(Or::Fault(Unread)),
    }
}

// The names of which the walk binds one and the other.
const NAMES: [&[u8]; 5] = [b"a", b"b", b"ab", b"", b"a_"];

/// Binds and unbinds names in turn, in so many steps. Writes the steps after which a name is found
/// elsewhere than by a search through all binders.
pub fn put_walk(alloc: Global, text: &str, out: &mut Vec<u8>) -> Result<(), Or<Unread>> {
    let Ok(steps) = text.parse::<u32>() else {
        return Err(Or::Fault(Unread));
    };
    let mut scope = Scope::new(alloc);
    let mut open = Vec::new(alloc);
    let outcome = put_steps(&mut scope, &mut open, steps, out);
    drop(open);
    drop(scope);
    Ok(outcome?)
}

fn put_steps(
    scope: &mut Scope<'static>,
    open: &mut Vec<&'static [u8]>,
    steps: u32,
    out: &mut Vec<u8>,
) -> Result<(), NoMemory> {
    for step in 0..steps {
        put_step(scope, open, step, out)?;
    }
    put(out, "walked")
}

// Binds a name or unbinds one, and writes the step after which one is found elsewhere.
fn put_step(
    scope: &mut Scope<'static>,
    open: &mut Vec<&'static [u8]>,
    step: u32,
    out: &mut Vec<u8>,
) -> Result<(), NoMemory> {
    if step % 7 < 4 {
        let index = step.wrapping_mul(step).wrapping_add(step / 3) % 5;
        let name = NAMES.get(index as usize).copied().unwrap_or(b"");
        scope.bind(name)?;
        open.push(name)?;
    } else {
        scope.unbind();
        let _ = open.pop();
    }
    if agrees(scope, open.as_slice()) {
        return Ok(());
    }
    put_number(out, "another after ", step)
}

// Whether each name is found where a search finds it.
fn agrees(scope: &Scope<'_>, open: &[&[u8]]) -> bool {
    for sought in NAMES {
        if scope.find(sought) != place_of(open, sought) {
            return false;
        }
    }
    true
}

// Where a search from the last name on finds a name, the last one at 0.
fn place_of(open: &[&[u8]], sought: &[u8]) -> Option<u32> {
    for (place, name) in open.iter().rev().enumerate() {
        if *name == sought {
            return u32::try_from(place).ok();
        }
    }
    None
}
