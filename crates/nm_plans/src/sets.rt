//! What a superblock says of one stripe, span by span.
ghost use Rattle.std.specs.Prelude.{◌≡◌, ◌≤◌, IfOk, length};
ghost use Rattle.nm_plans.specs.Sets.{AreMarksOf};

use nm_superblock::SpanMap;
use std::alloc::{AllocError, Global};

/// Which of the first spans are marked.
pub fn marks_in(alloc: Global, map: &SpanMap, spans: usize) -> Result<Vec<bool>, AllocError>
    requires { spans ≤ 16384 }
    ensures marks { IfOk result (λ marks. AreMarksOf spans map.now marks.items) }
    ensures count { IfOk result (λ marks. length marks.items ≡ spans) }
{
    let mut marks = Vec::with_capacity(alloc, spans)?;
    'spans: for span in 0..spans {
        marks.push_reserved(map.is_marked(span));
    }
    Ok(marks)
}
