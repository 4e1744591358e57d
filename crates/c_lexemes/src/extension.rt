/// Whether it is a word that GNU C reserves, and that serves as no identifier here.
pub(crate) fn is_extension(text: &[u8]) -> bool {
    match text {
        b"asm" => true,
        [b'_', b'_', rest @ ..] => is_reserved(rest),
        _ => false,
    }
}

/// The same of what stands behind two underscores.
fn is_reserved(rest: &[u8]) -> bool {
    match rest {
        b"attribute__" | b"attribute" => true,
        b"extension__" => true,
        b"asm__" | b"asm" => true,
        b"inline" | b"inline__" => true,
        b"restrict" | b"restrict__" => true,
        b"const" => true,
        b"volatile__" => true,
        b"signed__" => true,
        b"typeof__" => true,
        b"builtin_va_list" => true,
        _ => false,
    }
}
