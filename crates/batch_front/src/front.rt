//! The front: one value behind a turn, and the table by which passes take the turn.
ghost use Rattle.std.specs.Prelude.{◌≡◌, ℕ, ◌+◌, ◌-◌, ◌%◌, ◌^◌, ◌<◌, ◌≤◌, ◌↔◌, [], ◌∷◌, ◌++◌, true, false, length, Some, None, IsNone, IsTrue, MatchBool, option_map, IfOk, All, map};
ghost use Rattle.std.specs.List.{range_with_len, Contains};
ghost use Rattle.record_model.specs.Records.{IsPrefix, own, journal, event_of};
ghost use Rattle.record_model.specs.declared.event.Act.TheVariants.{Looked};
ghost use Rattle.batch_front.specs.Passes.{IsPenOf, IsHome, IsIn, added, card_of, new_pass};
ghost use Rattle.batch_front.specs.Turns.{IsWaiting, HasValue, IsAway, IsHolding, HasTaken, IsDealing, IsGathering, adding, longer};

use crate::chronicle::Chronicle;
use crate::pass::{News, Pass, Pen, Turn};
use crate::rule::{
    Chair, Commit, Compare, Deal, Desk, Draw, Gather, Hear, Leave, Look, Opening, Tell, Told,
};
use atomic_table::Table;
use cube_math::Batch;
use record_model::Act;
use std::alloc::{AllocError, Global};
use std::marker::{Brand, Model};
use std::snapshot::Snapshot;
use std::sync::Wait;
use std::thread;

// How often a pass yields before it sleeps.
const YIELDS: u32 = 64;

/// The one place where passes wait for each other: a turn by tickets, a value behind it, and one record of what was done in turns.
#[derive(Drop)]
pub struct Front<V: Chronicle> {
    desk: Desk<V>,
    opening: Opening<V>,
}

impl<V: Chronicle> Model for Front<V> {
    ghost use Rattle.std.specs.Prelude.{◌≡◌};
    ghost use Rattle.record_model.specs.declared.event.Act.TheVariants.{Looked};
    ghost use Rattle.batch_front.specs.Passes.{FrontValue, IsFront};

    ghost Value = { FrontValue V.Site };

    ghost view = { λ f. record { table = f.desk.shared.table_id; site = V.site f.opening.value.value; passes = f.opening.passes } };

    ghost invariant = { λ f. IsFront f.desk.shared.table_id f.opening.passes × (f.desk.shared.key ≡ f.opening) };
}

impl<V: Chronicle> Front<V> {
    /// A front before the value, and its passes, numbered from 0.
    pub fn new(alloc: Global, value: V, passes: u32) -> Result<(Front<V>, Vec<Pass<V>>), AllocError>
        requires some { 1 ≤ passes }
        requires few { passes ≤ 64 }
        requires empty { V.record value ≡ [] }
        ensures front { IfOk result (λ r. (r.0.site ≡ V.site value) × (r.0.passes ≡ passes)) }
        ensures passes { IfOk result (λ r. r.1.items ≡ map (new_pass r.0) (range_with_len 0 passes)) }
    {
        let opening = Opening {
            value: Snapshot::of(&value),
            passes,
        };
        let (desk, dealer) = desk_of(alloc, value, &opening)?;
        let front = Front { desk, opening };
        let given = front.deal_all(alloc, dealer)?;
        Ok((front, given))
    }

    fn deal_all(&self, alloc: Global, mut dealer: Chair<V>) -> Result<Vec<Pass<V>>, AllocError>
        requires table { dealer.table_id ≡ self.now.table }
        requires cards { IsDealing self.now.site (range_with_len 0 self.now.passes) dealer.me }
        ensures { IfOk result (λ v. v.items ≡ map (new_pass self.now) (range_with_len 0 self.now.passes)) }
    {
        let passes = self.opening.passes;
        let mut given = Vec::with_capacity(alloc, passes as usize)?;
        for number in 0..passes {
            given.push(self.deal(&mut dealer, number))?;
        }
        Ok(given)
    }

    // The pass of the first of the dealer's cards.
    fn deal(&self, dealer: &mut Chair<V>, number: u32) -> Pass<V>
        requires table { dealer.old.table_id ≡ self.now.table }
        requires number { number < self.now.passes }
        requires cards { IsDealing self.now.site (range_with_len number (self.now.passes - number)) dealer.old.me }
        ensures table { dealer.new.table_id ≡ dealer.old.table_id }
        ensures cards { IsDealing self.now.site (range_with_len (number + 1) (self.now.passes - (number + 1))) dealer.new.me }
        ensures pass { result ≡ new_pass self.now number }
    {
        Pass {
            seat: self.desk.shared.split_seat::<Deal>(dealer),
            opening: Snapshot::of(&self.opening),
            number,
            known: 0,
        }
    }

    // Whether the ticket is served. If it is, the seat has the value.
    fn look(&self, seat: &mut Chair<V>, ticket: u64) -> bool
        requires table { seat.old.table_id ≡ self.now.table }
        requires waits { IsWaiting seat.old.me ticket }
        ensures table { seat.new.table_id ≡ seat.old.table_id }
        ensures found { MatchBool result (HasValue V.record V.site seat.old.me seat.new.me) (seat.new.me ≡ seat.old.me) }
    {
        self.desk.shared.load::<Look<V>>(seat, 1) == ticket
    }

    fn wait<R: Wait>(&self, rt: &R, seat: &mut Chair<V>, ticket: u64)
        requires table { seat.old.table_id ≡ self.now.table }
        requires waits { IsWaiting seat.old.me ticket }
        ensures table { seat.new.table_id ≡ seat.old.table_id }
        ensures found { HasValue V.record V.site seat.old.me seat.new.me }
    {
        let mut served = false;
        let mut rounds = 0;
        for _ in rt.forever() {
            served = self.look(seat, ticket);
            if served {
                break;
            }
            if rounds < YIELDS {
                rounds += 1;
                thread::yield_now();
            } else {
                self.sleep(rt, ticket);
            }
        }
        prove!(served);
    }

    // Sleeps until the next ticket is served, where this one is not served yet. It may wake for no reason.
    fn sleep<R: Wait>(&self, rt: &R, ticket: u64) {
        let serving = self.desk.shared.peek(1);
        if serving != ticket {
            self.desk.shared.park(rt, 1, (serving % (1 << 32)) as u32);
        }
    }

    // Wakes who sleeps for a ticket after this one, if one was drawn. Who draws one later finds the next one served.
    fn wake(&self, served: u64) {
        if self.desk.shared.peek(0) != served.wrapping_add(1) {
            self.desk.shared.wake_all(1);
        }
    }

    // Draws a ticket, waits until it is served, and takes the value.
    fn take<R: Wait>(&self, rt: &R, seat: &mut Chair<V>) -> V
        requires table { seat.old.table_id ≡ self.now.table }
        requires away { IsAway seat.old.me }
        ensures table { seat.new.table_id ≡ seat.old.table_id }
        ensures value { HasTaken V.record V.site seat.old.me result seat.new.me }
    {
        let ticket = self.desk.shared.fetch_add::<Draw>(seat, 0, 1);
        self.wait(rt, seat, ticket);
        match self.desk.shared.exchange(seat, 0, None) {
            Some(value) => value,
            None => unreachable!(),
        }
    }

    /// Waits for the turn. The value stands for the record, all of which the pass has seen then.
    pub fn enter<R: Wait>(&self, rt: &R, pass: &mut Pass<V>) -> Turn<V>
        requires front { pass.old.front ≡ self.now }
        requires away { pass.old.turn ≡ None }
        ensures pass { pass.new ≡ record pass.old { seen = V.record result.value; turn = Some result.pen.turn } }
        ensures seen { IsPrefix pass.old.seen (V.record result.value) }
        ensures mine { own (V.record result.value) pass.old.number ≡ pass.old.mine }
        ensures site { V.site result.value ≡ self.now.site }
        ensures pen { result.pen ≡ record { front = self.now; turn = result.pen.turn; unused = true } }
    {
        let value = self.take(rt, &mut pass.seat);
        pass.known = value.published();
        let pen = Pen {
            pass: Snapshot::of(pass),
            unused: true,
        };
        Turn { value, pen }
    }

    // Adds the event that the call picks, which is that of the act and the batch.
    fn commit<E: Told>(&self, seat: &mut Chair<V>, act: Act, batch: Option<Snapshot<Batch>>)
        requires table { seat.old.table_id ≡ self.now.table }
        requires holding { IsHolding seat.old.me }
        ensures table { seat.new.table_id ≡ seat.old.table_id }
        ensures event { seat.new.me ≡ (adding seat.old.me.0 E.event, seat.old.me.1) }
    {
        let _act = act;
        let _batch = batch;
        self.desk.shared.fetch_add::<Commit<E>>(seat, 2, 1);
    }

    /// Adds the event of the act, and of its batch where it has one, to the record. Each turn may do so once.
    pub fn append(&self, pass: &mut Pass<V>, turn: &mut Turn<V>, act: Act, batch: Option<&Batch>)
        requires front { pass.old.front ≡ self.now }
        requires pen { IsPenOf pass.old turn.old.pen }
        requires unused { IsTrue turn.old.pen.unused }
        requires batch { IsNone batch ↔ (act ≡ Looked) }
        requires room { length (journal (pass.old.seen ++ (event_of act (option_map (λ b. b.now) batch), pass.old.number) ∷ [])) < 2 ^ 32 }
        ensures pass { pass.new ≡ added pass.old (event_of act (option_map (λ b. b.now) batch.entry)) }
        ensures value { turn.new.value ≡ turn.old.value }
        ensures pen { turn.new.pen ≡ record turn.old.pen { unused = false } }
    {
        self.append_told(pass, turn, act, snapshot_of(batch));
    }

    /// The same for an act whose batch the caller does not have any more, as where the value has taken it: a snapshot of
    /// the batch, which costs nothing, tells which one it was.
    pub fn append_told(
        &self,
        pass: &mut Pass<V>,
        turn: &mut Turn<V>,
        act: Act,
        batch: Option<Snapshot<Batch>>,
    )
        requires front { pass.old.front ≡ self.now }
        requires pen { IsPenOf pass.old turn.old.pen }
        requires unused { IsTrue turn.old.pen.unused }
        requires batch { IsNone batch ↔ (act ≡ Looked) }
        requires room { length (journal (pass.old.seen ++ (event_of act (option_map (λ b. b.value) batch), pass.old.number) ∷ [])) < 2 ^ 32 }
        ensures pass { pass.new ≡ added pass.old (event_of act (option_map (λ b. b.value) batch)) }
        ensures value { turn.new.value ≡ turn.old.value }
        ensures pen { turn.new.pen ≡ record turn.old.pen { unused = false } }
    {
        self.commit::<Brand>(&mut pass.seat, act, batch);
        pass.known += act.publications();
        turn.pen.unused = false;
    }

    /// Gives the turn to the pass that drew the next ticket.
    pub fn leave(&self, pass: &mut Pass<V>, turn: Turn<V>)
        requires front { pass.old.front ≡ self.now }
        requires pen { IsPenOf pass.old turn.pen }
        requires value { V.record turn.value ≡ pass.old.seen }
        requires site { V.site turn.value ≡ self.now.site }
        ensures { pass.new ≡ record pass.old { turn = None } }
    {
        let Turn { value, pen: _pen } = turn;
        match self.desk.shared.exchange(&mut pass.seat, 0, Some(value)) {
            Some(_value) => unreachable!(),
            None => {}
        }
        let served = self.desk.shared.fetch_add::<Leave>(&mut pass.seat, 1, 1);
        self.wake(served);
    }

    /// What the pass has seen, for another pass of this front.
    pub fn tell(&self, pass: &mut Pass<V>) -> News<V>
        requires { pass.old.front ≡ self.now }
        ensures pass { pass.new ≡ pass.old }
        ensures news { result ≡ record { front = self.now; seen = pass.old.seen } }
    {
        News {
            seat: self.desk.shared.split_seat::<Tell>(&mut pass.seat),
            opening: Snapshot::of(&self.opening),
            known: pass.known,
        }
    }

    /// Takes in what another pass had seen: the pass has seen the longer of both then, and each is a beginning of it.
    pub fn hear(&self, pass: &mut Pass<V>, news: News<V>)
        requires pass { pass.old.front ≡ self.now }
        requires news { news.front ≡ self.now }
        ensures pass { pass.new ≡ record pass.old { seen = longer pass.old.seen news.seen } }
        ensures seen { IsPrefix pass.old.seen pass.new.seen }
        ensures told { IsPrefix news.seen pass.new.seen }
    {
        let News { seat, known, .. } = news;
        self.desk.shared.join_seat::<Hear>(&mut pass.seat, seat);
        self.desk.shared.load::<Compare>(&mut pass.seat, 2);
        let most = pass.known.max(known);
        pass.known = most;
    }

    // Takes in the card of a pass.
    fn gather(&self, all: &mut Chair<V>, pass: Pass<V>)
        requires table { all.old.table_id ≡ self.now.table }
        requires gathers { IsGathering all.old.me.0.cards all.old.me }
        requires home { IsHome self.now pass }
        ensures table { all.new.table_id ≡ all.old.table_id }
        ensures gathers { IsGathering (all.old.me.0.cards ++ card_of pass ∷ []) all.new.me }
    {
        let Pass { seat, .. } = pass;
        self.desk.shared.join_seat::<Gather>(all, seat);
    }

    fn gather_all(&self, mut passes: Vec<Pass<V>>) -> Chair<V>
        requires some { 1 ≤ length passes.items }
        requires home { All (λ p. IsHome self.now p) passes.items }
        ensures table { result.table_id ≡ self.now.table }
        ensures gathers { IsGathering (map card_of passes.items) result.me }
    {
        let News { seat: mut all, .. } = self.tell(&mut passes[0]);
        for pass in passes {
            self.gather(&mut all, pass);
        }
        all
    }

    /// The value, once all passes came back. It stands for a record of which each pass has seen a beginning, with the events
    /// of each pass just as the pass knows them, and no others.
    pub fn close(self, passes: Vec<Pass<V>>) -> V
        requires all { length passes.items ≡ self.passes }
        requires home { All (λ p. IsHome self p) passes.items }
        ensures site { V.site result ≡ self.site }
        ensures passes { All (λ p. IsIn (V.record result) p) passes.items }
        ensures numbers { All (λ e. Contains (map (λ p. p.number) passes.items) e.1) (V.record result) }
    {
        let all = self.gather_all(passes);
        let Front { desk, opening: _ } = self;
        let mut closed = desk.close_with(all);
        let value = closed.take(0);
        closed.free();
        match value {
            Some(value) => value,
            None => unreachable!(),
        }
    }
}

// What tells of a batch once it is moved away.
fn snapshot_of(batch: Option<&Batch>) -> Option<Snapshot<Batch>>
    ensures batch { option_map (λ b. b.value) result ≡ option_map (λ b. b.now) batch.entry }
    ensures none { IsNone result ↔ IsNone batch.entry }
{
    match batch {
        Some(batch) => Some(Snapshot::of(batch)),
        None => None,
    }
}

// The table for a value with no event, and a seat that deals all cards.
fn desk_of<V: Chronicle>(
    alloc: Global,
    value: V,
    opening: &Opening<V>,
) -> Result<(Desk<V>, Chair<V>), AllocError>
    requires value { opening.now.value.value ≡ value }
    requires few { opening.now.passes ≤ 64 }
    requires empty { V.record value ≡ [] }
    ensures table { IfOk result (λ t. (t.0.shared.table_id.words ≡ 3) × (t.0.shared.table_id.slots ≡ 1) × (t.0.shared.key ≡ opening.now)) }
    ensures dealer { IfOk result (λ t. (t.1.table_id ≡ t.0.shared.table_id) × IsDealing (V.site value) (range_with_len 0 opening.now.passes) t.1.me) }
{
    let mut values = Vec::new(alloc);
    values.push(Some(value))?;
    let Ok(laid) = Table::new(alloc, &[0, 0, 0], values, opening) else {
        return Err(AllocError);
    };
    Ok(laid)
}
