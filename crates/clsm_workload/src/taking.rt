//! A worker takes its turn, and keeps the records of what was answered.
ghost use Rattle.std.specs.Prelude.{◌≡◌, ◌+◌, ◌≤◌, ◌<◌, ◌++◌, ◌∷◌, [], IfErr, IfOk, length, option_to_list, vec_len};
ghost use Rattle.std.specs.Vec.{vec_capacity};
ghost use Rattle.clsm_model.specs.History.{History};
ghost use Rattle.clsm_store_calls.specs.Many.{HoldValues};
ghost use Rattle.clsm_store_calls.specs.Seats.{IsSameSeat, Refuses};
ghost use Rattle.clsm_workload.specs.declared.turn.Turn.TheVariants.{Call};
ghost use Rattle.clsm_workload.specs.Turns.{IsExchanged, ReadsKeys, Swaps, TakesTurn, gets_of, met_before, unmet_of};

use crate::exchange::{Exchange, MEMBERS};
use crate::player::{Player, play_deal};
use crate::turn::{MANY, Outcome, Turn};
use crate::unwritten::Unwritten;
use clsm_model::{CallRecord, Change, Deal, Deed, Key, Memory, Time, Value};
use std::alloc::Global;
use std::sync::Wait;

/// As many records as a turn makes at most: an exchange reads two keys twice, and writes a batch.
pub const MOST_RECORDS: usize = 5;

/// Takes the turn, and keeps the records of what was answered behind the others: there is room for
/// them. A call may be refused if memory runs out: the seat and the records are as before then.
pub fn take_turn<S: Player, R: Wait>(
    rt: &R,
    alloc: Global,
    player: &mut S,
    turn: Turn,
    records: &mut Vec<CallRecord>,
) -> Result<Outcome, Memory>
    requires room { vec_len records.old + 5 ≤ vec_capacity records.old }
    ensures taken { IfOk result (λ outcome. TakesTurn turn (S.seat player.old) (S.seat player.new) records.old.items records.new.items) }
    ensures same { IsSameSeat (S.seat player.old) (S.seat player.new) }
    ensures refused { IfErr result (λ refusal. Refuses (S.seat player.old) (S.seat player.new)) }
    ensures kept { IfErr result (λ refusal. records.new.items ≡ records.old.items) }
{
    match turn {
        Turn::Call(deal) => make_call(rt, alloc, player, deal, records),
        Turn::Many { keys } => {
            let mut values = [None; MANY];
            read_keys(player, &keys, &mut values, records);
            Ok(Outcome::Done)
        }
        Turn::Swap { one, other } => swap(rt, alloc, player, (one, other), records),
    }
}

/// Makes one call, and keeps its record if it was answered.
fn make_call<S: Player, R: Wait>(
    rt: &R,
    alloc: Global,
    player: &mut S,
    deal: Deal,
    records: &mut Vec<CallRecord>,
) -> Result<Outcome, Memory>
    requires room { vec_len records.old < vec_capacity records.old }
    ensures taken { IfOk result (λ outcome. TakesTurn (Call deal) (S.seat player.old) (S.seat player.new) records.old.items records.new.items) }
    ensures same { IsSameSeat (S.seat player.old) (S.seat player.new) }
    ensures refused { IfErr result (λ refusal. Refuses (S.seat player.old) (S.seat player.new)) }
    ensures kept { IfErr result (λ refusal. records.new.items ≡ records.old.items) }
{
    let made = play_deal(rt, alloc, player, deal)?;
    let outcome = outcome_of(&made);
    keep(records, made);
    Ok(outcome)
}

/// How a turn ended whose one call made this.
fn outcome_of(made: &Option<CallRecord>) -> Outcome {
    if made.is_some() {
        Outcome::Done
    } else {
        Outcome::Refused
    }
}

/// Keeps the record, if there is one. There is room for it.
fn keep(records: &mut Vec<CallRecord>, answered: Option<CallRecord>)
    requires { vec_len records.old < vec_capacity records.old }
    ensures { records.new.items ≡ records.old.items ++ option_to_list answered }
{
    if let Some(record) = answered {
        records.push_reserved(record);
    }
}

/// Reads the keys at one time, puts their values into the places beside them, and keeps a get of
/// each key at that time.
fn read_keys<S: Player>(
    player: &mut S,
    keys: &[u64],
    values: &mut [Option<Value>],
    records: &mut Vec<CallRecord>,
)
    requires same { length values.old ≡ length keys.now }
    requires room { vec_len records.old + length keys.now ≤ vec_capacity records.old }
    ensures reads { ReadsKeys keys.now (S.seat player.old) (S.seat player.new) values.new records.old.items records.new.items }
    ensures same { IsSameSeat (S.seat player.old) (S.seat player.new) }
    ensures len { vec_len records.new ≡ vec_len records.old + length keys.now }
    ensures capacity { vec_capacity records.new ≡ vec_capacity records.old }
{
    let time = player.read_many(keys, values);
    keep_gets(records, player.number(), time, keys, values);
}

/// Keeps a get of each key at the time, by the seat with this number, which had the value beside
/// it. There is room for them.
fn keep_gets(
    records: &mut Vec<CallRecord>,
    seat: u32,
    time: Time,
    keys: &[u64],
    values: &[Option<Value>],
)
    requires same { length values.now ≡ length keys.now }
    requires room { vec_len records.old + length keys.now ≤ vec_capacity records.old }
    ensures kept { (h : History) → HoldValues (λ place value. place ≡ value) h time keys.now values.now →
        records.new.items ≡ records.old.items ++ gets_of h seat time keys.now }
    ensures len { vec_len records.new ≡ vec_len records.old + length keys.now }
    ensures capacity { vec_capacity records.new ≡ vec_capacity records.old }
{
    for at in 0..keys.len() {
        let (key, reply) = (keys[at], values[at]);
        let deed = Deed::Get { key, reply };
        records.push_reserved(CallRecord { seat, time, deed });
    }
}

/// Reads both keys at one time, and exchanges what they have.
#[tactic(auto, using(crate::proofs::Calls::refuses_self, crate::proofs::Calls::same_self))]
fn swap<S: Player, R: Wait>(
    rt: &R,
    alloc: Global,
    player: &mut S,
    keys: (Key, Key),
    records: &mut Vec<CallRecord>,
) -> Result<Outcome, Memory>
    requires room { vec_len records.old + 5 ≤ vec_capacity records.old }
    ensures taken { IfOk result (λ outcome. Swaps keys.0 keys.1 (S.seat player.old) (S.seat player.new) records.old.items records.new.items) }
    ensures same { IsSameSeat (S.seat player.old) (S.seat player.new) }
    ensures refused { IfErr result (λ refusal. Refuses (S.seat player.old) (S.seat player.new)) }
    ensures kept { IfErr result (λ refusal. records.new.items ≡ records.old.items) }
{
    let Ok(room) = Vec::with_capacity(alloc, MEMBERS) else {
        return Err(Memory);
    };
    let (one, other) = keys;
    let mut values = [None; MEMBERS];
    read_keys(player, &[one, other], &mut values, records);
    let exchange = Exchange {
        one,
        other,
        one_had: values[0],
        other_had: values[1],
    };
    Ok(exchange_keys(rt, player, &exchange, room, records))
}

/// Exchanges what the keys had, if both still have it, and keeps the batch with what was read of
/// them in its hold.
fn exchange_keys<S: Player, R: Wait>(
    rt: &R,
    player: &mut S,
    exchange: &Exchange,
    room: Vec<(u64, Change)>,
    records: &mut Vec<CallRecord>,
) -> Outcome
    requires none { room.items ≡ [] }
    requires members { 2 ≤ vec_capacity room }
    requires room { vec_len records.old + 3 ≤ vec_capacity records.old }
    ensures exchanged { IsExchanged exchange.now (S.seat player.old) (S.seat player.new) records.old.items records.new.items }
    ensures same { IsSameSeat (S.seat player.old) (S.seat player.new) }
{
    let conditions = exchange.conditions();
    let members = exchange.members(room);
    let answer = player.write_if(rt, &conditions, members.as_slice());
    let seat = player.number();
    let keys = [exchange.one, exchange.other];
    let values = [exchange.one_had, exchange.other_had];
    match answer {
        Ok(time) => {
            keep_gets(records, seat, time, &keys, &values);
            let deed = Deed::Batch { members };
            records.push_reserved(CallRecord { seat, time, deed });
            Outcome::Done
        }
        Err(unwritten) => keep_met(records, seat, &unwritten, exchange),
    }
}

/// Keeps what was read of the keys before the one that has something else, if that is why the batch
/// was not written.
fn keep_met(
    records: &mut Vec<CallRecord>,
    seat: u32,
    unwritten: &Unwritten,
    exchange: &Exchange,
) -> Outcome
    requires room { vec_len records.old < vec_capacity records.old }
    ensures { records.new.items ≡ records.old.items ++ met_before seat exchange.now (unmet_of unwritten.now) }
{
    let Some((index, time)) = unwritten.unmet() else {
        return Outcome::Refused;
    };
    if index == 1 {
        let (key, reply) = (exchange.one, exchange.one_had);
        let deed = Deed::Get { key, reply };
        records.push_reserved(CallRecord { seat, time, deed });
    }
    Outcome::Unmet
}
