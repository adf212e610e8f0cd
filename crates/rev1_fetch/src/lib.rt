//! FETCH of IMAP4rev1 (RFC 3501, sections 6.4.5 and 7.4.2): the items that the profile hasn't, made
//! of the whole text of a message.
//!
//! [`plan_fetch`] reads the arguments of a FETCH that asks for such items. It gives arguments of
//! the profile, which ask for the client's other items and once for the whole text, and a
//! [`FetchPlan`]: the items to be made of that text, in the client's order. [`show_fetch`] appends
//! the answer for one message: what the profile has, and then the items of the plan.
//!
//! Of the definitions by which the code reads, laws say what they mean over whole texts and lists:
//! [`arguments_are_read`], [`items_are_divided`], [`sections_are_read`],
//! [`sections_are_as_inside`], [`parts_are_counted`] and [`numbers_are_those_of_bodies`].
//!
//! # Decided
//!
//! - Sections of the profile are made of the whole text too, once it is asked for. So one text is
//!   fetched, and the client's order stays.
//! - The whole text is asked for by BODY[] if an item sets `\Seen`, otherwise by BODY.PEEK[].
//! - Sections are read by the grammar of the profile, without their part's number.
//! - An answer without the whole text isn't one to the command, and is shown as it is.
#![tactic(auto)]

mod fetch_items;
mod item_fault;
mod item_places;
mod item_words;
mod items_text;
mod laws;
mod part_numbers;
mod part_places;
mod plan;
mod shown_items;
mod text_item;

pub use laws::{
    arguments_are_read, items_are_divided, numbers_are_those_of_bodies, parts_are_counted,
    sections_are_as_inside, sections_are_read,
};
pub use plan::{FetchPlan, FetchRequest, plan_fetch};
pub use shown_items::show_fetch;
