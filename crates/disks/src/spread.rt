ghost use Rattle.std.specs.Prelude.{◌≡◌, ◌≤◌, ◌<◌, ◌+◌, ◌^◌, ℕ, IfOk, length, max};
ghost use Rattle.disks.specs.Disks.{written};
ghost use Rattle.disks.specs.Images.{Touches, IsPainted};

use std::alloc::Global;
use value_lists::NoMemory;

/// Which bytes are touched after a write.
pub fn touched_after(
    alloc: Global,
    touched: &[bool],
    at: usize,
    count: usize,
) -> Result<Vec<bool>, NoMemory>
    requires { at + count < 2 ^ 64 }
    ensures { IfOk result (λ v. Touches at count touched.now v.items) }
{
    let end = at + count;
    let size = if touched.len() < end {
        end
    } else {
        touched.len()
    };
    let mut after = Vec::new(alloc);
    for place in 0..size {
        let was = place < touched.len() && touched[place];
        let here = !(place < at) && place < end;
        after.push(here || was)?;
    }
    Ok(after)
}

/// What a read gives after a write.
pub fn bytes_after(alloc: Global, bytes: &[u8], at: usize, from: &[u8]) -> Result<Vec<u8>, NoMemory>
    requires { at ≤ length bytes.now }
    ensures { IfOk result (λ v. v.items ≡ written at from.now bytes.now) }
{
    let (front, rest) = bytes.split_at(at);
    let mut after = Vec::from_slice(alloc, front)?;
    after.extend_from_slice(from)?;
    if from.len() < rest.len() {
        after.extend_from_slice(&rest[from.len()..])?;
    }
    Ok(after)
}

/// What no write touched, and else the fill.
pub fn painted(
    alloc: Global,
    bytes: &[u8],
    touched: &[bool],
    fill: u8,
    size: usize,
) -> Result<Vec<u8>, NoMemory>
    ensures { IfOk result (λ v. IsPainted bytes.now touched.now fill size v.items) }
{
    let mut file = Vec::new(alloc);
    for place in 0..size {
        let was = place < touched.len() && touched[place];
        let byte = if place < bytes.len() && !was {
            bytes[place]
        } else {
            fill
        };
        file.push(byte)?;
    }
    Ok(file)
}
