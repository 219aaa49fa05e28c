// The search for the context of a break or a continue.
ghost use Rattle.std.specs.Prelude.{◌≡◌, ◌+◌, ◌<◌, ◌≤◌, true, length, MatchOption};
ghost use Rattle.contexts.specs.Contexts.{label_bytes, label_fits, label_matches, found};
ghost use Rattle.contexts.specs.View.{contexts_of};

use super::CtxStack;
use kinds::context::{EntryKind, Label};

impl<'a> CtxStack<'a> {
    // Whether a label lies within the text; no label does. O(1).
    pub fn label_fits(&self, label: Option<Label>) -> bool
        ensures { result ≡ label_fits self.now.text.now label }
    {
        label.is_none_or(|l| {
            l.offset <= self.text.len() && l.length <= self.text.len() - l.offset
        })
    }

    // The bytes of a label. O(1).
    fn bytes(&self, label: Label) -> &[u8]
        requires { label.offset + label.length ≤ length self.now.text.now }
        ensures { result.now ≡ label_bytes self.now.text.now label }
    {
        &self.text[label.offset..label.offset + label.length]
    }

    // Whether a context's own label is the one sought, where one is sought.
    fn is(&self, label: Option<Label>, own: Option<Label>) -> bool
        requires left { label_fits self.now.text.now label ≡ true }
        requires right { label_fits self.now.text.now own ≡ true }
        ensures { result ≡ label_matches self.now.text.now label own }
    {
        match (label, own) {
            (None, _) => true,
            (Some(_), None) => false,
            (Some(l), Some(m)) => self.bytes(l) == self.bytes(m),
        }
    }

    // The number of the context that takes an entry of this kind by this label, if there is one. O(open contexts + their labels' bytes).
    pub fn find(&self, kind: EntryKind, label: Option<Label>) -> Option<usize>
        requires { label_fits self.now.text.now label ≡ true }
        ensures value { result ≡ found self.now.text.now kind label (contexts_of self.now) }
        ensures within { MatchOption result (⊥ → ⊥) (λ i. i < length (contexts_of self.now)) }
    {
        for (i, ctx) in self.stack.iter().enumerate().rev() {
            if ctx.flags.function {
                return None;
            }
            if ctx.allows(kind) && self.is(label, ctx.label) {
                return Some(i);
            }
        }
        None
    }
}
