//! Environments with the items of rows.
use crate::items::{ItemRow, item};
use mz_environment::environment::Environment;
use mz_environment::numbering::Numbering;
use mz_samples::fault::SampleFault;
use std::alloc::Global;
use std::mem::forget;

fn put_item(
    alloc: Global,
    env: &mut Environment,
    at: &mut Numbering,
    row: ItemRow,
) -> Result<(), SampleFault> {
    let item = item(alloc, row)?;
    let added = env.add(alloc, at, &item);
    forget(item);
    added?;
    Ok(())
}

/// Puts the items of the rows, as those of the article with the number, behind what is there.
pub fn put_items(
    alloc: Global,
    env: &mut Environment,
    article: u64,
    rows: &[ItemRow],
) -> Result<(), SampleFault> {
    let mut at = Numbering::of_article(article);
    for row in rows {
        put_item(alloc, env, &mut at, *row)?;
    }
    Ok(())
}
