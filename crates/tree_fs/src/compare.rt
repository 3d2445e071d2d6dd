// Places are compared by their texts.
ghost use Rattle.std.specs.Prelude.{◌≡◌, Some, nat_eq, refl};
ghost use Rattle.std.specs.Ordering.{on, nat_cmp};
ghost use Rattle.std.specs.Cmp.Lexicographic.{pointwise, slice_cmp, on_texts, on_texts_equal, texts_ties, texts_po};
ghost use Rattle.std.specs.Cmp.{partial_equiv_from_equiv, on_po};
ghost use Rattle.tree_fs.specs.Texts.{rel_text, place_text, text_writes};
ghost use Rattle.std.specs.Hash.{on_Alike, same_Alike};
ghost use Rattle.std.proofs.lemmas.Slice.Eq.{bytes_eq-Decides};

use crate::Place;
use rel_paths::RelPath;
use std::cmp::Ordering;
use std::fmt;
use std::hash::{Hash, Hasher};

impl PartialEq for Place {
    ghost eq = { on place_text (pointwise nat_eq) };

    ghost laws = { partial_equiv_from_equiv (on_texts_equal place_text) };

    fn eq(&self, other: &Place) -> bool {
        self.root == other.root && rel_eq(&self.rel, &other.rel)
    }
}

impl Eq for Place {
    ghost laws = { on_texts_equal place_text };
}

impl PartialOrd for Place {
    ghost partial_cmp = { λ x y. Some (slice_cmp nat_cmp (place_text x) (place_text y)) };

    ghost laws = { on_po place_text texts_po };

    fn partial_cmp(&self, other: &Place) -> Option<Ordering> {
        Some(self.cmp(other))
    }
}

/// The order of the bytes of the texts.
impl Ord for Place {
    ghost cmp = { on place_text (slice_cmp nat_cmp) };

    ghost total = { on_texts place_text };

    ghost matches_partial_cmp = { λ x y. refl };

    ghost matches_eq = { λ x y. texts_ties (place_text x) (place_text y) };

    fn cmp(&self, other: &Place) -> Ordering {
        if self.root == other.root {
            rel_cmp(&self.rel, &other.rel)
        } else {
            self.root.word().cmp(other.root.word())
        }
    }
}

impl Hash for Place {
    ghost hash_input = { λ place. text_writes (place_text place) };

    ghost respects_eq = { (on_Alike place_text (same_Alike text_writes bytes_eq-Decides)).fed };

    #[tactic(auto, unfolding(crate::specs::Texts::text_writes))]
    fn hash<H: Hasher>(&self, state: &mut H) {
        self.root.word().hash(state);
        if let Some(path) = &self.rel {
            path.hash(state);
        }
    }
}

impl fmt::Debug for Place {
    fn fmt<W: fmt::Write>(&self, f: &mut fmt::Formatter<W>) -> fmt::Result {
        write!(f, "{self}")
    }
}

/// The text.
impl fmt::Display for Place {
    ghost output = { λ place. Some (place_text place) };

    fn fmt<W: fmt::Write>(&self, f: &mut fmt::Formatter<W>) -> fmt::Result {
        f.write_str(self.root.word())?;
        if let Some(path) = &self.rel {
            f.write_str("/")?;
            f.write_str(path.text())?;
        }
        Ok(())
    }
}

fn rel_eq(a: &Option<RelPath>, b: &Option<RelPath>) -> bool
    ensures { result ≡ pointwise nat_eq (rel_text a.now) (rel_text b.now) }
{
    match (a, b) {
        (None, None) => true,
        (Some(a), Some(b)) => a == b,
        _ => false,
    }
}

fn rel_cmp(a: &Option<RelPath>, b: &Option<RelPath>) -> Ordering
    ensures { result ≡ slice_cmp nat_cmp (rel_text a.now) (rel_text b.now) }
{
    match (a, b) {
        (None, None) => Ordering::Equal,
        (None, Some(_)) => Ordering::Less,
        (Some(_), None) => Ordering::Greater,
        (Some(a), Some(b)) => a.cmp(b),
    }
}
