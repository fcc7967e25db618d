//! Lists of zeros.
use std::alloc::Global;
use zy_base::NoMemory;

/// Makes a list of this number of zeros, or of items of which each number is zero.
pub(crate) fn zeros<T: Default + Drop>(alloc: Global, count: u64) -> Result<Vec<T>, NoMemory> {
    let mut items = Vec::new(alloc);
    match add_zeros(&mut items, count) {
        Ok(()) => Ok(items),
        Err(e) => {
            drop(items);
            Err(e)
        }
    }
}

// Appends zeros.
fn add_zeros<T: Default + Drop>(items: &mut Vec<T>, count: u64) -> Result<(), NoMemory> {
    for _ in 0..count {
        items.push(T::default())?;
    }
    Ok(())
}
