use c_syntax::Token;
use std::io;
use sv_base::SourceFault;

/// A line for each token: the number of its presumed name, its line and its column, its offsets, and what it is.
pub(crate) fn write_tokens(rt: &impl Print, tokens: &[Token]) -> io::Result<()> {
    for token in tokens {
        let place = token.place;
        let name = place.file.0;
        let kind = token.kind;
        println!(rt;
            "{name}:{}:{} {}..{} {kind:?}",
            place.line, place.col, token.start, token.end
        )?;
    }
    Ok(())
}

/// A line for a fault: the number of its presumed name, its line and its column, and why the file is refused.
pub(crate) fn write_fault(rt: &impl Print, fault: SourceFault) -> io::Result<()> {
    let place = fault.place;
    let name = place.file.0;
    let kind = fault.kind;
    println!(rt; "{name}:{}:{} {kind:?}", place.line, place.col)
}
