//! The numbers that ranges cover.

ghost use Rattle.std.specs.Prelude.{◌≡◌, false, ◌∷◌, [], find, OnOk};
ghost use Rattle.std.specs.List.{list_any};
ghost use Rattle.dc_scope.specs.Ranges as ranges;
ghost use Rattle.dc_scope.specs.Ranges.{HasNumbers, AreApart, reaches, touches, HaveSame};

use dc_text::NoMemory;
use std::alloc::Global;
use std::collections::BTreeMap;
use std::marker::Model;

/// The first range that ends where another begins or behind that. A range is its high end and then
/// its low end.
fn first_from(lows: &BTreeMap<i64, i64>, range: (i64, i64)) -> Option<(i64, i64)>
    ensures { result ≡ find (reaches range) lows.now.entries }
{
    match lows.range(range.1..).next() {
        Some((high, low)) => Some((*high, *low)),
        None => None,
    }
}

/// The first range that meets another.
fn first_meeting(lows: &BTreeMap<i64, i64>, range: (i64, i64)) -> Option<(i64, i64)>
    requires { AreApart lows.now.entries }
    ensures { result ≡ find (touches range) lows.now.entries }
{
    let first = first_from(lows, range)?;
    if first.1 <= range.0 {
        Some(first)
    } else {
        None
    }
}

fn joined(range: (i64, i64), other: (i64, i64)) -> (i64, i64)
    ensures { result ≡ ranges.joined range other }
{
    (range.0.max(other.0), range.1.min(other.1))
}

/// Takes out the ranges that meet another, and joins them to it.
fn take_meeting(lows: &mut BTreeMap<i64, i64>, range: (i64, i64)) -> (i64, i64)
    requires apart { AreApart lows.old.entries }
    requires numbers { HasNumbers range }
    ensures apart { AreApart lows.new.entries }
    ensures numbers { HasNumbers result }
    ensures clear { list_any (touches result) lows.new.entries ≡ false }
    ensures same { HaveSame (result ∷ lows.new.entries) (range ∷ lows.old.entries) }
{
    let mut whole = range;
    while let Some(met) = first_meeting(lows, whole) {
        lows.remove(&met.0);
        whole = joined(whole, met);
    }
    whole
}

/// Numbers, as ranges of which no two meet.
#[derive(Drop)]
pub(crate) struct Covered {
    /// The low end of each range at its high end.
    lows: BTreeMap<i64, i64>,
}

impl Model for Covered {
    ghost use Rattle.std.specs.Prelude.{ℤ, List};
    ghost use Rattle.dc_scope.specs.Ranges.{AreApart};

    ghost Value = { List (ℤ × ℤ) };

    ghost view = { λ covered. covered.lows.entries };

    ghost invariant = { λ covered. AreApart covered.lows.entries };
}

impl Covered {
    pub(crate) fn none(alloc: Global) -> Covered
        ensures { result ≡ [] }
    {
        Covered {
            lows: BTreeMap::new(alloc),
        }
    }

    /// Whether some number of a range is covered.
    #[tactic(auto, using(crate::proofs::Ranges::some_found))]
    pub(crate) fn meets(&self, range: (i64, i64)) -> bool
        ensures { result ≡ list_any (touches range) self.now }
    {
        first_meeting(&self.lows, range).is_some()
    }

    /// Covers the numbers of a range too.
    pub(crate) fn add(&mut self, range: (i64, i64)) -> Result<(), NoMemory>
        requires { HasNumbers range }
        ensures { OnOk result (HaveSame self.new (range ∷ self.old)) }
    {
        let whole = take_meeting(&mut self.lows, range);
        self.lows.insert(whole.0, whole.1)?;
        Ok(())
    }
}
