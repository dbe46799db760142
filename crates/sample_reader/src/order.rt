// Groups in another order.
ghost use Rattle.std.specs.Prelude.{◌≡◌, ◌≢◌, ◌<◌, ◌↔◌, All, AllPairs, IfOk, IsErrOf, IsPermutation, IsTrue, OnOk, bytes_eq, length, map, slice_index};
ghost use Rattle.sample_reader.specs.Data.{data_of, strata_data_of};
ghost use Rattle.sample_reader.specs.Groups.{number_among};
ghost use Rattle.sample_reader.specs.Orders.{renumbered, reordered, reordered_strata};

use crate::labels::Labels;
use crate::samples::{Groups, StrataGroups, sizes_of};
use std::alloc::Global;
use thiserror::Error;
use weights::Nums;

/// Why groups are not put into an order.
#[derive(Clone, Copy, Debug, PartialEq, Eq, Error)]
pub enum OrderFault {
    /// The labels of the order are not those of the groups.
    #[error("the order does not have the labels of the groups")]
    Unfit,
    /// Memory ran out.
    #[error("no memory")]
    NoMemory,
}

impl From<weights::NoMemory> for OrderFault {
    ghost use Rattle.std.specs.Prelude.{◌≡◌};
    ghost use Rattle.sample_reader.specs.declared.order.OrderFault.TheVariants as fault;

    ghost from_gives = { λ _ result. result ≡ fault.NoMemory };

    fn from(_error: weights::NoMemory) -> OrderFault {
        OrderFault::NoMemory
    }
}

// The number of each label in the order, or the length of the order where it is not there.
fn numbers_in(alloc: Global, labels: &Labels, order: &Labels) -> Result<Nums, weights::NoMemory>
    ensures { IfOk result (λ numbers. numbers ≡ map (number_among bytes_eq order.now) labels.now) }
{
    let mut numbers = Nums::empty(alloc);
    for label in 0..labels.len() {
        numbers.push(order.number_of(labels.label(label)) as u64)?;
    }
    Ok(numbers)
}

// Whether there are so many numbers, and each is below that.
fn is_whole(numbers: &[u64], many: usize) -> bool
    ensures { IsTrue result
        ↔ ((length numbers.now ≡ many) × All (λ number. number < many) numbers.now) }
{
    numbers.len() == many && numbers.iter().all(|number| *number < many as u64)
}

// The number of each label in the order, where the order has the same labels.
fn new_numbers(alloc: Global, labels: &Labels, order: &Labels) -> Result<Nums, OrderFault>
    requires { AllPairs ◌≢◌ labels.now }
    ensures numbers { IfOk result (λ numbers.
        numbers ≡ map (number_among bytes_eq order.now) labels.now) }
    ensures fit { OnOk result (IsPermutation labels.now order.now) }
    ensures unfit { IsErrOf result OrderFault.Unfit → ¬ IsPermutation labels.now order.now }
{
    let numbers = numbers_in(alloc, labels, order)?;
    if !is_whole(numbers.as_slice(), order.len()) {
        return Err(OrderFault::Unfit);
    }
    Ok(numbers)
}

// The members by the new numbers of their groups.
fn by_numbers(alloc: Global, members: &[u64], numbers: &[u64]) -> Result<Nums, weights::NoMemory>
    requires { All (λ member. member < length numbers.now) members.now }
    ensures { IfOk result (λ new.
        new ≡ map (λ member. slice_index numbers.now member) members.now) }
{
    let mut new = Nums::empty(alloc);
    for member in members {
        new.push(numbers[*member as usize])?;
    }
    Ok(new)
}

// The members by the numbers of the labels in the order, where the order has the same labels.
fn members_in_order(
    alloc: Global,
    labels: &Labels,
    members: &[u64],
    order: &Labels,
) -> Result<Nums, OrderFault>
    requires distinct { AllPairs ◌≢◌ labels.now }
    requires groups_exist { All (λ group. group < length labels.now) members.now }
    ensures members { IfOk result (λ new. new ≡ renumbered order.now labels.now members.now) }
    ensures fit { OnOk result (IsPermutation labels.now order.now) }
    ensures unfit { IsErrOf result OrderFault.Unfit → ¬ IsPermutation labels.now order.now }
{
    let numbers = new_numbers(alloc, labels, order)?;
    Ok(by_numbers(alloc, members, numbers.as_slice())?)
}

/// The groups with their labels in this order: the labels, the sizes and the members' numbers
/// change, and the subjects and their values stand as they did.
///
/// # Errors
/// `Unfit` where the labels of the groups are not those of the order, each as often as there. Or
/// else `NoMemory` where memory runs out.
pub fn reorder(alloc: Global, groups: &Groups, order: &Labels) -> Result<Groups, OrderFault>
    ensures ok { IfOk result (λ new. data_of new ≡ reordered order.now (data_of groups.now)) }
    ensures fit { OnOk result (IsPermutation groups.now.labels order.now) }
    ensures unfit { IsErrOf result OrderFault.Unfit → ¬ IsPermutation groups.now.labels order.now }
{
    let members = members_in_order(alloc, &groups.labels, groups.members.as_slice(), order)?;
    let sizes = sizes_of(alloc, order.len(), members.as_slice())?;
    Ok(Groups {
        labels: order.copy()?,
        sizes,
        members,
        values: groups.values.copy()?,
    })
}

/// The groups in their strata with the labels of the groups in this order: these labels, the sizes
/// and the members' numbers change, and the strata, the subjects and their values stand as they
/// did.
///
/// # Errors
/// As those of [`reorder`].
pub fn reorder_strata(
    alloc: Global,
    samples: &StrataGroups,
    order: &Labels,
) -> Result<StrataGroups, OrderFault>
    ensures ok { IfOk result (λ new.
        strata_data_of new ≡ reordered_strata order.now (strata_data_of samples.now)) }
    ensures fit { OnOk result (IsPermutation samples.now.labels order.now) }
    ensures unfit { IsErrOf result OrderFault.Unfit
        → ¬ IsPermutation samples.now.labels order.now }
{
    let members = members_in_order(alloc, &samples.labels, samples.members.as_slice(), order)?;
    let sizes = sizes_of(alloc, order.len(), members.as_slice())?;
    Ok(StrataGroups {
        strata: samples.strata.copy()?,
        labels: order.copy()?,
        sizes,
        places: samples.places.copy()?,
        members,
        values: samples.values.copy()?,
    })
}
