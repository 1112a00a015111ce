// The entries of all transfers that wait, in one pool. An entry is named by the number of the item that issued it, plus 1, and 0 names none. It keeps
// its place in the pool from issue to delivery. Outside the pool a read answers 0 and a store changes nothing.
#![tactic(auto)]

ghost use Rattle.std.specs.Prelude.{◌≡◌, ◌<◌};
ghost use Rattle.memory.specs.Tables.{number_at, stored};
ghost use Rattle.entries.specs.Entries.{pool_size, address_at, request_at, delivery_at, address_stored, request_stored};

use memory::{number_at, store};
use model::{Address, ITEMS};

// Where an entry has its numbers: two places, rank and cell of each, the value that was fetched, the group, the remote rank, and the entry that
// follows in its list.
pub const SOURCE: usize = 0;

pub const DESTINATION: usize = 2;

pub const VALUE: usize = 4;

pub const GROUP: usize = 5;

pub const REMOTE: usize = 6;

pub const LINK: usize = 7;

pub const ENTRY: usize = 8;

// The entries of all transfers.
pub type Pool = [[u16; ENTRY]; ITEMS];

// "A pending request now remembers its remote rank (for a read, the rank read from)"; "source rank and cell, then destination rank and cell"; and the
// group of the command that asked.
#[derive(Clone, Copy)]
pub struct Request {
    pub remote: u16,
    pub source: Address,
    pub destination: Address,
    pub group: u16,
}

// Of the remote rank: "and so does its delivery"; "destination and value"; and the group.
#[derive(Clone, Copy)]
pub struct Delivery {
    pub remote: u16,
    pub destination: Address,
    pub value: u16,
    pub group: u16,
}

// A number of an entry, read and stored.
pub fn field_at(pool: &Pool, entry: u16, field: usize) -> u16
    ensures { result ≡ number_at pool_size pool.now entry field }
{
    number_at(pool, entry, field)
}

pub fn set_field(pool: &mut Pool, entry: u16, field: usize, value: u16)
    ensures { pool.new ≡ stored pool_size pool.old entry field value }
{
    store(pool, entry, field, value);
}

// The place that two numbers of an entry give.
fn address_at(pool: &Pool, entry: u16, field: usize) -> Address
    requires { field < pool_size.width }
    ensures { result ≡ address_at pool.now entry field }
{
    Address {
        rank: field_at(pool, entry, field),
        cell: field_at(pool, entry, field + 1),
    }
}

fn set_address(pool: &mut Pool, entry: u16, field: usize, place: Address)
    requires { field < pool_size.width }
    ensures { pool.new ≡ address_stored pool.old entry field place }
{
    set_field(pool, entry, field, place.rank);
    set_field(pool, entry, field + 1, place.cell);
}

// The entry as a request and as a delivery.
pub fn request_at(pool: &Pool, entry: u16) -> Request
    ensures { result ≡ request_at pool.now entry }
{
    Request {
        remote: field_at(pool, entry, REMOTE),
        source: address_at(pool, entry, SOURCE),
        destination: address_at(pool, entry, DESTINATION),
        group: field_at(pool, entry, GROUP),
    }
}

pub fn delivery_at(pool: &Pool, entry: u16) -> Delivery
    ensures { result ≡ delivery_at pool.now entry }
{
    Delivery {
        remote: field_at(pool, entry, REMOTE),
        destination: address_at(pool, entry, DESTINATION),
        value: field_at(pool, entry, VALUE),
        group: field_at(pool, entry, GROUP),
    }
}

// The entry that stands for a request from now on.
pub fn set_request(pool: &mut Pool, entry: u16, request: Request)
    ensures { pool.new ≡ request_stored pool.old entry request }
{
    set_address(pool, entry, SOURCE, request.source);
    set_address(pool, entry, DESTINATION, request.destination);
    set_field(pool, entry, GROUP, request.group);
    set_field(pool, entry, REMOTE, request.remote);
}
