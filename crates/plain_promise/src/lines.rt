// The lines of a script that lies in memory.
ghost use Rattle.std.specs.Prelude.{◌≡◌, ℕ, ◌<◌, ◌≤◌, [], length, drop, slice_index};
ghost use Rattle.std.specs.Option.{IfSome, IfNone};
ghost use Rattle.call_script.specs.Lines.{lines};
ghost use Rattle.plain_promise.specs.Walks.{IsLine};

// The index of the first byte 10 from `at` on, or the script's length.
fn break_from(script: &[u8], at: usize) -> usize
    requires { at ≤ length script.now }
    ensures from { at ≤ result }
    ensures within { result ≤ length script.now }
    ensures none { (k : ℕ) → at ≤ k → k < result → slice_index script.now k ≡ 10 → ⊥ }
    ensures found { result < length script.now → slice_index script.now result ≡ 10 }
{
    for i in at..script.len() {
        if script[i] == b'\n' {
            return i;
        }
    }
    script.len()
}

// The line that begins at `at`, and where the next one begins; none at the end.
pub(crate) fn next_line(script: &[u8], at: usize) -> Option<(&[u8], usize)>
    requires { at ≤ length script.now }
    ensures some { IfSome result (λ l. IsLine script.now at l.0.now l.1) }
    ensures none { IfNone result (lines (drop at script.now) ≡ []) }
{
    if at == script.len() {
        return None;
    }
    let end = break_from(script, at);
    if end < script.len() {
        Some((&script[at..end], end + 1))
    } else {
        Some((&script[at..end], end))
    }
}
