// Keys of a stage as keys of another network, which goes on from there.
ghost use Rattle.std.specs.Prelude.{◌≡◌, ◌+◌, ◌*◌, ◌≤◌, ℤ, List, length, map, OnOk, IfOk};
ghost use Rattle.weights.specs.declared.TheConstants.{MAX};
ghost use Rattle.node_pool.specs.Nodes.{weighted};
ghost use Rattle.node_pool.specs.PoolSteps.{nodes_of};
ghost use Rattle.node_runs.specs.Runs.{IsGrown};
ghost use Rattle.networks.specs.Completions.{extreme_weight};
ghost use Rattle.networks.specs.Network.{IsReached};
ghost use Rattle.stage_network.specs.FromKeys.{AreStarts};
ghost use Rattle.networks.specs.GoesOn.{GoesOn};
ghost use Rattle.stage_network.specs.Images.{AreImages};
ghost use Rattle.stage_network.specs.Ordering.{entry_node};

use crate::flat_keys::laid_flat;
use crate::from_keys::sum_from_keys;
use crate::ordering::Entry;
use networks::{Onward, Roomed, Stages, behind, front};
use node_pool::key_at;
use node_runs::RunPool;
use std::alloc::Global;
use weights::{Count, NoMemory, Tail, Wide};

// Adds a weight to a key's.
fn add_to(pool: &mut RunPool<Wide>, key: &[i128], weight: u128) -> Result<(), NoMemory>
    requires wide { length key.now ≡ pool.old.width }
    requires fits { weighted (λ k. 1) pool.old.nodes + weight ≤ MAX }
    ensures width { OnOk result (pool.new.width ≡ pool.old.width) }
    ensures grown { OnOk result (IsGrown pool.old.nodes key.now weight pool.new.nodes) }
{
    match Wide::of(weight) {
        Some(count) => pool.add(key, count)?,
        None => unreachable!(),
    }
    Ok(())
}

// Adds a key's image.
fn add_image<Q: Onward>(
    quick: &Q,
    stage: usize,
    key: &[i128],
    weight: u128,
    pool: &mut RunPool<Wide>,
) -> Result<(), NoMemory>
    requires key { Q.takes quick.now stage key.now }
    requires wide { pool.old.width ≡ (Q.Stages.network quick.now).width }
    requires fits { weighted (λ k. 1) pool.old.nodes + weight ≤ MAX }
    ensures width { OnOk result (pool.new.width ≡ pool.old.width) }
    ensures grown { let image = Q.image_of quick.now stage key.now in
        OnOk result (IsGrown pool.old.nodes image weight pool.new.nodes) }
{
    let _lawful = quick.stages();
    let mut numbers = [0i128; 16];
    let image = &mut numbers[..quick.width()];
    quick.write_image(stage, key, image);
    add_to(pool, image, weight)?;
    Ok(())
}

// The images of keys, each once, with the weights of all keys whose image it is.
fn gathered<S: Stages, Q: Onward>(
    alloc: Global,
    stages: &S,
    quick: &Q,
    stage: usize,
    keys: &[i128],
    weights: &[u128],
) -> Result<RunPool<Wide>, NoMemory>
    requires starts { AreStarts (S.network stages.now) stage keys.now weights.now }
    requires taken { (k : List ℤ)
        → IsReached (S.network stages.now) stage k → Q.takes quick.now stage k }
    ensures width { IfOk result (λ pool. pool.width ≡ (Q.Stages.network quick.now).width) }
    ensures images { let n = S.network stages.now in
        let nodes = nodes_of n.width keys.now weights.now in
        IfOk result (λ pool. AreImages (Q.image_of quick.now stage) nodes pool.nodes) }
{
    let _count = stages.stages();
    let _lawful = quick.stages();
    let width = stages.width();
    let mut pool = RunPool::<Wide>::new(alloc, quick.width())?;
    for i in 0..weights.len() {
        add_image(quick, stage, key_at(width, keys, i), weights[i], &mut pool)?;
    }
    Ok(pool)
}

// The nodes of a pool, cut into rooms and partials.
fn entries_in<'a>(
    alloc: Global,
    room_width: usize,
    pool: &'a RunPool<Wide>,
) -> Result<Vec<Entry<'a>>, NoMemory>
    requires { room_width ≤ pool.now.width }
    ensures { IfOk result (λ entries. map entry_node entries.items ≡ pool.now.nodes) }
{
    let mut entries = Vec::new(alloc);
    for i in 0..pool.len() {
        let key = pool.key(i);
        entries.push(Entry {
            room: front(key, room_width),
            partial: behind(key, room_width),
            weight: pool.weight(i).value(),
        })?;
    }
    Ok(entries)
}

/// The sum, over distinct keys that are reached at a stage and lie one after another, of the key's
/// weight times the summed weight of its extreme completions, as [`sum_from_keys`]
/// gives it, by another network that goes on from a stage of its own.
pub fn sum_by_images<S: Stages, Q: Onward>(
    alloc: Global,
    stages: &S,
    quick: &Q,
    tail: Tail,
    stage: usize,
    at: usize,
    keys: &[i128],
    weights: &[u128],
) -> Result<u128, NoMemory>
    requires starts { AreStarts (S.network stages.now) stage keys.now weights.now }
    requires goes_on { GoesOn (S.network stages.now) (Q.Stages.network quick.now) stage at
        (Q.image_of quick.now stage) }
    requires taken { (k : List ℤ)
        → IsReached (S.network stages.now) stage k → Q.takes quick.now stage k }
    ensures { let n = S.network stages.now in
        IfOk result (λ sum. sum
        ≡ weighted (extreme_weight n tail stage) (nodes_of n.width keys.now weights.now)) }
{
    let _lawful = quick.stages();
    let pool = gathered(alloc, stages, quick, stage, keys, weights)?;
    let _apart = pool.len();
    let mut entries = entries_in(alloc, quick.room_width(), &pool)?;
    let flat = laid_flat(alloc, quick.width(), entries.as_mut_slice())?;
    let sum = sum_from_keys(alloc, quick, tail, at, &flat.keys, &flat.weights)?;
    Ok(sum)
}
