//! Numbers, and groups of numbers.
use chw_base::Or;
use row_tables::Unread;
use std::alloc::Global;

/// The groups of numbers of a text, with semicolons between.
pub fn groups_of(alloc: Global, text: &str) -> Result<Vec<Vec<u32>>, Or<Unread>> {
    let mut groups = Vec::new(alloc);
    for group in text.split(';') {
        groups.push(numbers_of(alloc, group)?)?;
    }
    Ok(groups)
}

/// The numbers of a text, with spaces between.
pub fn numbers_of(alloc: Global, text: &str) -> Result<Vec<u32>, Or<Unread>> {
    let mut numbers = Vec::new(alloc);
    for word in text.split_whitespace() {
        let Ok(number) = word.parse::<u32>() else {
            return Err(Or::Fault(Unread));
        };
        numbers.push(number)?;
    }
    Ok(numbers)
}
