ghost use Rattle.std.specs.Prelude.{◌≡◌, ◌++◌, IfOk, drop};
ghost use Rattle.match_views.specs.Merging.{joined, cut, lacking};

use std::alloc::Global;
use value_lists::NoMemory;

/// The numbers of both rising lists.
pub fn join(alloc: Global, xs: &[u32], ys: &[u32]) -> Result<Vec<u32>, NoMemory>
    ensures { IfOk result (λ all. all.items ≡ joined xs.now ys.now) }
{
    let mut all = Vec::new(alloc);
    let mut i = 0;
    let mut j = 0;
    while i < xs.len() && j < ys.len() {
        let (x, y) = (xs[i], ys[j]);
        if x < y {
            all.push(x)?;
            i += 1;
        } else if y < x {
            all.push(y)?;
            j += 1;
        } else {
            all.push(x)?;
            i += 1;
            j += 1;
        }
    }
    all.extend_from_slice(&xs[i..])?;
    all.extend_from_slice(&ys[j..])?;
    Ok(all)
}

/// The numbers that both rising lists have.
pub fn cut(alloc: Global, xs: &[u32], ys: &[u32]) -> Result<Vec<u32>, NoMemory>
    ensures { IfOk result (λ both. both.items ≡ cut xs.now ys.now) }
{
    let mut both = Vec::new(alloc);
    let mut i = 0;
    let mut j = 0;
    while i < xs.len() && j < ys.len() {
        let (x, y) = (xs[i], ys[j]);
        if x < y {
            i += 1;
        } else if y < x {
            j += 1;
        } else {
            both.push(x)?;
            i += 1;
            j += 1;
        }
    }
    Ok(both)
}

/// The numbers of the first rising list that the second lacks.
pub fn lack(alloc: Global, xs: &[u32], ys: &[u32]) -> Result<Vec<u32>, NoMemory>
    ensures { IfOk result (λ rest. rest.items ≡ lacking xs.now ys.now) }
{
    let mut rest = Vec::new(alloc);
    let mut i = 0;
    let mut j = 0;
    while i < xs.len() && j < ys.len() {
        let (x, y) = (xs[i], ys[j]);
        if x < y {
            rest.push(x)?;
            i += 1;
        } else if y < x {
            j += 1;
        } else {
            i += 1;
            j += 1;
        }
    }
    rest.extend_from_slice(&xs[i..])?;
    Ok(rest)
}
