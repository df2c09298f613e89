// Long inputs, made by repetition.
use std::alloc::{AllocError, Global};

// A front, the same text so many times, and a back.
pub(crate) fn between(
    heap: Global,
    front: &[u8],
    text: &[u8],
    times: usize,
    back: &[u8],
) -> Result<Vec<u8>, AllocError> {
    let mut all = Vec::new(heap);
    all.extend_from_slice(front)?;
    all.extend_from_slice(text.repeat(heap, times)?.as_slice())?;
    all.extend_from_slice(back)?;
    Ok(all)
}
