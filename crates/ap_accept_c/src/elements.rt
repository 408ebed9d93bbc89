//! The authorization data of what was accepted, element by element (RFC 4120, section 5.2.6).
ghost use Rattle.std.specs.Prelude.{◌≡◌, pos, option_map, option_copied};
ghost use Rattle.std.specs.Option.{unwrap_or};
ghost use Rattle.ap_accept_c.specs.Calls.{IsFetchedOf};
ghost use Rattle.ap_accept_c.specs.Elements.{element_in, elements_in};

use crate::buffers::{Given, give};
use crate::last::Last;
use crate::status::Status;
use ap_accept::Accepted;
use krb_elements::Seq;
use krb_fields::Typed;

/// The place of an element.
#[repr(C)]
#[derive(Clone, Copy)]
pub struct Place {
    /// 1 for those of the ticket, 2 for those of the authenticator.
    pub list: u32,
    /// How many elements are before it.
    pub index: usize,
}

/// The result of a call that copies an element into a buffer.
#[derive(Clone, Copy)]
pub struct Element {
    /// The result of copying its bytes.
    pub given: Given,
    /// Its type, or 0 if there is no such element.
    pub number: i32,
}

impl Element {
    /// Returns the result of a call that has no element to copy.
    pub fn none(status: Status) -> Element
        ensures status { result.given.status ≡ status }
        ensures len { result.given.len ≡ 0 }
        ensures number { result.number ≡ pos 0 }
    {
        Element {
            given: Given::none(status),
            number: 0,
        }
    }
}

/// Copies the bytes of an element to the front of the buffer, if they fit.
pub fn give_element(element: Option<&Typed>, to: &mut [u8]) -> Element
    ensures given { IsFetchedOf result.given.status (option_map (λ t. t.octets) (option_copied element.entry))
        to.old to.new result.given.len }
    ensures number { result.number ≡ unwrap_or (option_map (λ t. t.number) (option_copied element.entry)) (pos 0) }
{
    match element {
        Some(element) => Element {
            given: give(element.octets.as_slice(), to),
            number: element.number,
        },
        None => Element::none(Status::Absent),
    }
}

/// Returns the element at a place, if what was accepted has one there.
pub fn element_at(last: &Last, place: Place) -> Option<&Typed>
    ensures { option_copied result ≡ element_in place last.now }
{
    let accepted = last.accepted.as_ref()?;
    let elements = elements_in(accepted, place.list)?;
    let elements = elements.as_slice();
    if place.index < elements.len() {
        Some(&elements[place.index])
    } else {
        None
    }
}

fn elements_in(accepted: &Accepted, list: u32) -> Option<&Seq<Typed>>
    ensures { option_copied result ≡ elements_in list accepted.now }
{
    match list {
        1 => accepted.ticket_authorization.as_ref(),
        2 => accepted.authorization.as_ref(),
        _ => None,
    }
}
