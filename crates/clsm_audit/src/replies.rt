//! Whether what a call read is what a plain map gives.
ghost use Rattle.std.specs.Prelude.{◌≡◌, ℕ, ◌↔◌, IfOk, IsTrue};
ghost use Rattle.clsm_model.specs.History.{History};
ghost use Rattle.clsm_model.specs.Map.{IsMap};
ghost use Rattle.clsm_model.specs.Right.{IsPage, Reads, first_key};

use clsm_model::{Deed, Memory, PlainMap, Value};

/// The key of the first row, if there is one.
pub fn key_of_first(rows: &[(u64, Value)]) -> Option<u64>
    ensures { result ≡ first_key rows.now }
{
    rows.first().map(|row| row.0)
}

/// Whether the rows are the first `max` of all, and `more` the key of the next one.
fn is_page(all: &[(u64, Value)], max: u64, rows: &[(u64, Value)], more: Option<u64>) -> bool
    ensures { IsTrue result ↔ IsPage all.now max rows.now more }
{
    let count = max.min(all.len() as u64) as usize;
    let (front, rest) = all.split_at(count);
    rows == front && more == key_of_first(rest)
}

/// Whether what the deed read is what the map gives. Refused if memory runs out.
pub fn is_reply(map: &PlainMap, deed: &Deed) -> Result<bool, Memory>
    ensures { IfOk result (λ right. (h : History) (s : ℕ) →
        IsMap h s map.now → (IsTrue right ↔ Reads h s deed.now)) }
{
    match deed {
        Deed::Rmw { key, old, .. } => Ok(*old == map.get(*key)),
        Deed::Get { key, reply } | Deed::GetAt { key, reply } => Ok(*reply == map.get(*key)),
        Deed::Scan { lo, hi, rows } => Ok(rows.as_slice() == map.range(*lo, *hi)?.as_slice()),
        Deed::Page { range, rows, more } => Ok(is_page(
            map.range(range.from, range.hi)?.as_slice(),
            range.max,
            rows.as_slice(),
            *more,
        )),
        _ => Ok(true),
    }
}
