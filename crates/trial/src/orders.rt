//! Reads the key `taken` of a setting: the orders that a general took for the labels that he relays.
ghost use Rattle.std.specs.Prelude.{◌≡◌, ◌≢◌, ◌≤◌, IfOk, IfErr, length, replicate, option_map};
ghost use Rattle.toml.specs.View.{view, items_view};
ghost use Rattle.trial.specs.Checks.{over, set_order, are_few, orders, taken};
ghost use Rattle.trial.specs.Flaws.{Gives};
ghost use Rattle.trial.specs.declared.fault.SettingError.TheVariants.{Memory};

use crate::fault::{SettingError, SettingFault};
use crate::keys::{elements, number};
use crate::place::{SettingKey, SettingPlace};
use std::alloc::Global;
use toml::Value;

/// Returns the orders of a TOML array, by the rank of the label. The last labels have order 0 if the array is too
/// short.
///
/// # Errors
///
/// Fails with the first fault of an element, at its index, or with `Memory` if memory runs out.
fn listed(alloc: Global, labels: u32, values: &[Value]) -> Result<Vec<u32>, SettingError>
    requires { length values.now ≤ labels }
    ensures gives { Gives (λ orders. orders.items) result
        (over set_order 0 (replicate labels 0) (items_view values.now)) }
    ensures long { IfOk result (λ orders. length orders.items ≡ labels) }
{
    let mut orders = vec![in alloc; 0; labels as usize]?;
    for index in 0..values.len() {
        orders[index] = number(
            SettingPlace::Order(index),
            0,
            u32::MAX,
            Some(&values[index]),
        )?;
    }
    Ok(orders)
}

/// Checks that the key `taken` has no more orders (`number`) than there are labels.
///
/// # Errors
///
/// Fails with `Range` at `taken` if it has more.
fn are_few(labels: u32, number: usize) -> Result<(), SettingError>
    ensures value { Gives (λ _. tt) result (are_few labels number) }
    ensures few { IfOk result (λ _. number ≤ labels) }
    ensures fault { IfErr result (λ e. e ≢ Memory) }
{
    if number > labels as usize {
        return Err(SettingError::At(SettingFault::Range, SettingPlace::Key(SettingKey::Taken)));
    }
    Ok(())
}

/// Returns the order for each of the labels, by rank. The last labels have order 0 if the array is too short.
///
/// # Errors
///
/// Fails with the first fault of the array, or with `Memory` if memory runs out.
#[tactic(auto, unfolding(crate::specs::Checks::orders), using(crate::proofs::Items::items_length_view))]
fn orders(alloc: Global, labels: u32, values: &[Value]) -> Result<Vec<u32>, SettingError>
    ensures gives { Gives (λ orders. orders.items) result (orders labels (items_view values.now)) }
    ensures long { IfOk result (λ orders. length orders.items ≡ labels) }
{
    are_few(labels, values.len())?;
    listed(alloc, labels, values)
}

/// Returns the order that the general took for each of the `labels` labels, by rank. It is 0, RETREAT, for all if the
/// key is missing, and for the last labels if the array is too short.
///
/// # Errors
///
/// Fails with the first fault of the key `taken`, or with `Memory` if memory runs out.
#[tactic(auto, unfolding(crate::specs::Checks::taken))]
pub fn taken(alloc: Global, labels: u32, value: Option<&Value>) -> Result<Vec<u32>, SettingError>
    ensures gives { Gives (λ orders. orders.items) result (taken labels (option_map (λ v. view v.now) value.entry)) }
    ensures long { IfOk result (λ orders. length orders.items ≡ labels) }
{
    match value {
        None => Ok(vec![in alloc; 0; labels as usize]?),
        Some(value) => orders(
            alloc,
            labels,
            elements(SettingPlace::Key(SettingKey::Taken), value)?,
        ),
    }
}
