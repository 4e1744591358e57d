//! `matrices close|tighten SIZE COUNT` does one operation so often on a matrix of 2 to 16 variables.

use crate::trouble::Trouble;
use crate::turns::{Operation, repeat};

pub(crate) fn answer(rt: &HostRuntime, words: &[String]) -> Result<(), Trouble> {
    let [name, size, count] = words else {
        return Err(Trouble::Words);
    };
    let operation = match name.as_str() {
        "close" => Operation::Close,
        "tighten" => Operation::Tighten,
        _ => return Err(Trouble::Words),
    };
    let (Ok(size), Ok(count)) = (
        size.as_str().parse::<usize>(),
        count.as_str().parse::<u64>(),
    ) else {
        return Err(Trouble::Words);
    };
    if size < 2 || size > 16 {
        return Err(Trouble::Words);
    }
    let done = repeat(operation, size, count);
    println!(rt; "{} {size} {done}", name.as_str())?;
    Ok(())
}
