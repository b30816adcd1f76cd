//! Texts and what is told where they are refused.
use crate::calls::status;
use std::alloc::{AllocError, Global};

// Whether `check` refuses the text so.
fn is_refused(alloc: Global, text: &str, told: &str) -> Result<bool, AllocError> {
    let mut note = String::from_str(alloc, "baggy: refused ")?;
    note.push_str(told)?;
    note.push_str("\n")?;
    let got = status(alloc, &["check", "f.c"], text.as_bytes(), note.as_str())?;
    Ok(got == Some(124))
}

/// The first of the texts that is not refused so between these two.
pub(crate) fn unrefused(
    alloc: Global,
    before: &str,
    texts: &[&'static str],
    after: &str,
    told: &str,
) -> Result<Option<&'static str>, AllocError> {
    for text in texts {
        let mut whole = String::from_str(alloc, before)?;
        whole.push_str(text)?;
        whole.push_str(after)?;
        if !is_refused(alloc, whole.as_str(), told)? {
            return Ok(Some(*text));
        }
    }
    Ok(None)
}
