//! A till's requests, one after another.
ghost use Rattle.std.specs.Prelude.{◌≡◌, ◌≤◌, ◌<◌, ◌^◌, [], length, vec_capacity};
ghost use Rattle.till_calls.specs.Shop.{shop_id, till_knows, till_number, till_shop};
ghost use Rattle.till_calls.specs.Client.{TillRun, asks_of};

use crate::shop::Shop;
use crate::tills::Till;
use chain_disk::Disk;
use journal::StoreFault;
use ports::Clock;
use shop_core::{Reply, Request};
use std::alloc::Global;
use std::sync::Wait;

/// Asks a till's requests in order, with serials from 1, and keeps the replies.
pub fn serve<D: Disk, C: Clock, R: Wait>(
    rt: &R,
    alloc: Global,
    shop: &Shop<D, C>,
    till: &mut Till<D, C>,
    requests: &[Request],
    replies: &mut Vec<Result<Reply, StoreFault>>,
)
    requires own { till_shop till.old ≡ shop_id shop.now }
    requires few { length requests.now < 2 ^ 32 }
    requires room { (length requests.now ≤ vec_capacity replies.old) × (replies.old.items ≡ []) }
    ensures same { (till_shop till.new ≡ till_shop till.old) × (till_number till.new ≡ till_number till.old) }
    ensures run { TillRun C.coming (till_knows till.old) (asks_of (till_number till.old) requests.now) replies.new.items
        (till_knows till.new) }
{
    for (i, request) in requests.iter().enumerate() {
        let reply = shop.ask(rt, alloc, till, i as u32 + 1, request);
        replies.push_reserved(reply);
    }
}
