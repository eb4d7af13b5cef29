//! Equal keys with different labels.
ghost use Rattle.std.specs.Prelude.{◌+◌, ◌<◌, ◌^◌, length, IfNone, IfOk, IfSome};
ghost use Rattle.wire_classes.specs.Keys.{AreLooked, KeysAgree, KeysClash};

use crate::labels::label;
use chw_base::{Name, NoMemory};
use name_tables::Declared;
use std::alloc::Global;

// Looks at the key of this number, after those before it. If an equal key before it has another
// label, its number comes.
fn look<'t>(
    names: &mut Declared<'t>,
    firsts: &mut Vec<u32>,
    keys: &'t [Name],
    labels: &[u32],
    i: u32,
) -> Result<Option<u32>, NoMemory>
    requires looked { AreLooked keys.now labels.now i names.old firsts.old.items }
    requires within { i < length keys.now }
    ensures none { IfOk result (λ o. IfNone o
        (AreLooked keys.now labels.now (i + 1) names.new firsts.new.items)) }
    ensures some { IfOk result (λ o. IfSome o (λ first.
        KeysClash keys.now labels.now first i)) }
{
    let key = keys[i as usize].as_slice();
    match names.find(key) {
        Some(k) => {
            let first = firsts[k as usize];
            if label(labels, first as usize) == label(labels, i as usize) {
                Ok(None)
            } else {
                Ok(Some(first))
            }
        }
        None => {
            let _ = names.declare(key)?;
            firsts.push(i)?;
            Ok(None)
        }
    }
}

/// Two equal keys with different labels.
pub(crate) fn clash(
    alloc: Global,
    keys: &[Name],
    labels: &[u32],
) -> Result<Option<(u32, u32)>, NoMemory>
    requires { length keys.now < 2 ^ 32 }
    ensures none { IfOk result (λ o. IfNone o (KeysAgree keys.now labels.now)) }
    ensures some { IfOk result (λ o. IfSome o (λ p.
        KeysClash keys.now labels.now p.0 p.1)) }
{
    let mut names = Declared::new(alloc);
    let mut firsts = Vec::new(alloc);
    for i in 0..keys.len() as u32 {
        if let Some(first) = look(&mut names, &mut firsts, keys, labels, i)? {
            return Ok(Some((first, i)));
        }
    }
    Ok(None)
}
