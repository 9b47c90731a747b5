//! A replay of a schedule, step by step.

ghost use Rattle.std.specs.Prelude.{◌≡◌, ◌≢◌, ◌<◌, ◌⊎◌, map, IfOk, IfErr, OnErr, IsOkAnd, None};
ghost use Rattle.std.specs.FinMap as finite;
ghost use Rattle.occ_types.specs.PlainData.{key_of, end_of};
ghost use Rattle.occ_text.specs.declared.steps.Act.TheVariants as acts;
ghost use Rattle.occ_types.specs.declared.fault.Fault.TheVariants as faults;
ghost use Rattle.occ_core.specs.Resuming.{CannotGoOn, resume_fault};
ghost use Rattle.occ_core.specs.Runs.{event_of};
ghost use Rattle.occ_cli.specs.Answers.{answer_of};
ghost use Rattle.occ_cli.specs.Answers as says;
ghost use Rattle.occ_text.specs.Steps.{step_of, Does, Get, Scan, Forge, RawRead, Alone, Show, Checkpoint};
ghost use Rattle.occ_text.specs.Operations.{operation_of};
ghost use Rattle.occ_cli.specs.Replaying.{started, going_on, client_of, counts_of, ByClient, ByStore, Writes, Plays, Played, PlayedIn, PutOff, Starved, WantsWrite, object_named, played};

use crate::answers::{Answer, Counts, answered, refused};
use crate::clients::{Client, fresh_clients, place_of};
use crate::table_names::place_named;
use occ_book::Base;
use occ_core::{Core, Reply, Step as Call};
use occ_queue::Item;
use occ_sets::RequestWrites;
use occ_text::headers::Limits;
use occ_text::operations::Operation;
use occ_text::steps::{Act, Step};
use occ_types::{Fault, Key, Refused, Row, Schema};
use std::alloc::{AllocError, Allocator};
use std::marker::Model;

/// A store and its clients, one for each session, as the steps of a schedule leave them.
#[derive(Drop)]
pub struct Replay<A: Allocator> {
    alloc: A,
    core: Core<A>,
    clients: Vec<Client<A>, A>,
}

impl<A: Allocator> Model for Replay<A> {
    ghost use Rattle.std.specs.Coded.{codes};
    ghost use Rattle.std.specs.FinMap as finite;
    ghost use Rattle.occ_cli.specs.Replaying.{Replayed};

    ghost Value = { Replayed };

    ghost coded = { Prim.hlevel (codes, finite.code) };

    ghost view = { λ r. record { world = r.core.world; clients = r.clients.items } };
}

impl<A: Allocator + Copy> Replay<A> {
    /// An empty store with these tables, and a client for each of its sessions. Refused with `Memory` where there is none for it, and the schema is handed back then.
    pub fn open(
        alloc: A,
        schema: Schema<A>,
        limits: Limits,
    ) -> Result<Replay<A>, Refused<Schema<A>>>
        ensures started { IfOk result (λ replay. replay ≡ started (record { schema = schema; sessions = limits.sessions; keep = limits.keep }) limits.queue) }
        ensures handed_back { IfErr result (λ refused. (refused.value ≡ schema) × (refused.fault ≡ faults.Memory)) }
    {
        let clients = match fresh_clients(alloc, limits.sessions, limits.queue) {
            Ok(clients) => clients,
            Err(fault) => {
                return Err(Refused {
                    value: schema,
                    fault,
                });
            }
        };
        let core = Core::open(alloc, schema, limits.sessions, limits.keep)?;
        Ok(Replay {
            alloc,
            core,
            clients,
        })
    }

    /// A store that goes on from a base in which no session has a number (`Base::renumbered`), with these tables, and a client for each
    /// of its sessions, which begins with the number 1. The counter begins with 0.
    ///
    /// Refused with `OutOfTurn` where a session has a number; as `Core::resume`; and with `Memory` where there is none for the clients.
    /// The schema and the base are handed back then.
    pub fn resume(
        alloc: A,
        schema: Schema<A>,
        limits: Limits,
        base: Base<A>,
    ) -> Result<Replay<A>, Refused<(Schema<A>, Base<A>)>>
        ensures resumed { IfOk result (λ replay. replay ≡ going_on (record { schema = schema; sessions = limits.sessions; keep = limits.keep }) base.base limits.queue) }
        ensures anew { IfOk result (λ _. finite.len base.base.last ≡ 0) }
        ensures fits { IfOk result (λ _. resume_fault schema limits.sessions base 0 ≡ None) }
        ensures fault { IfErr result (λ refused. ((0 < finite.len base.base.last) × (refused.fault ≡ faults.OutOfTurn)) ⊎ ((refused.fault ≡ faults.Memory) ⊎ CannotGoOn schema limits.sessions base 0 refused.fault)) }
        ensures handed_back { IfErr result (λ refused. refused.value ≡ (schema, base)) }
    {
        if base.numbers().len() > 0 {
            return Err(Refused {
                value: (schema, base),
                fault: Fault::OutOfTurn,
            });
        }
        let clients = match fresh_clients(alloc, limits.sessions, limits.queue) {
            Ok(clients) => clients,
            Err(fault) => {
                return Err(Refused {
                    value: (schema, base),
                    fault,
                });
            }
        };
        let core = Core::resume(alloc, schema, limits.sessions, limits.keep, base, 0)?;
        Ok(Replay {
            alloc,
            core,
            clients,
        })
    }

    /// Does a step, and answers it. It is an error where memory is refused, which comes only where no other refusal applies that is tried before, and where the step takes memory: as it can be for `enter`, `serial`, `write`, `get`, `scan`, `put`, `delete`, `alone`, `forge` and `rawread` only. Nothing has changed then, but that what was to enter is kept for the next time, as after any refusal.
    pub fn answer(&mut self, step: Step<'_, A>) -> Result<Answer<A>, AllocError>
        ensures ok { IfOk result (λ answer. Plays self.old (step_of step.entry) (answer_of answer) self.new) }
        ensures fed { IfOk result (λ answer. answer_of answer ≢ says.refused faults.Memory) }
        ensures err { OnErr result (Starved self.old (step_of step.entry) self.new) }
    {
        match self.play(step) {
            Ok(answer) => answered(answer),
            Err(fault) => refused(fault),
        }
    }

    // Does a step. What a client refuses is an error; what the store refuses may be one, or a reply.
    pub(crate) fn play(&mut self, step: Step<'_, A>) -> Result<Answer<A>, Fault>
        ensures { Played result (Starved self.old (step_of step.entry) self.new) (λ answer. Plays self.old (step_of step.entry) answer self.new) }
    {
        match step {
            Step::Does { act, session } => self.act(act, session),
            Step::Get {
                session,
                table,
                key,
            } => self.get(session, table, key),
            Step::Scan {
                session,
                table,
                lower,
                upper,
            } => self.scan(session, table, lower, upper),
            Step::Put {
                session,
                table,
                key,
                row,
            } => self.write(session, table, key, Some(row)),
            Step::Delete {
                session,
                table,
                key,
            } => self.write(session, table, key, None),
            Step::Forge {
                session,
                number,
                start,
            } => self.forge(session, number, start),
            Step::RawRead {
                session,
                number,
                start,
                table,
                key,
            } => self.read_raw(session, number, start, table, key),
            Step::Alone {
                session,
                operations,
            } => self.alone(session, operations),
            Step::Show => Ok(Answer::Counted(self.counts())),
            Step::Checkpoint => self.checkpoint(),
        }
    }

    // A step that names a session and nothing else.
    fn act(&mut self, act: Act, session: usize) -> Result<Answer<A>, Fault>
        ensures { Played result (Starved self.old (Does act session) self.new) (λ answer. Plays self.old (Does act session) answer self.new) }
    {
        match act {
            Act::Begin => self.begin(session),
            Act::Abandon => self.abandon(session),
            Act::Submit => self.submit(session),
            Act::Close => self.close(session),
            Act::Enter => self.enter(session),
            Act::Serial => self.serial(session),
            Act::Decide => self.call(Call::Decide(session)),
            Act::Write => self.call(Call::WriteOne(session)),
            Act::Finish => self.call(Call::Finish(session)),
            Act::BackUp => self.call(Call::BackUp(session)),
        }
    }

    fn begin(&mut self, session: usize) -> Result<Answer<A>, Fault>
        ensures { Plays self.old (Does acts.Begin session) (played result) self.new }
    {
        let place = place_of(self.clients.as_slice(), session)?;
        let counter = self.core.tnc();
        let client = &mut self.clients[place];
        client.begin(self.alloc, counter)
    }

    fn abandon(&mut self, session: usize) -> Result<Answer<A>, Fault>
        ensures { Plays self.old (Does acts.Abandon session) (played result) self.new }
    {
        let place = place_of(self.clients.as_slice(), session)?;
        let client = &mut self.clients[place];
        client.abandon(&mut self.core, session)
    }

    fn submit(&mut self, session: usize) -> Result<Answer<A>, Fault>
        ensures { Plays self.old (Does acts.Submit session) (played result) self.new }
    {
        let place = place_of(self.clients.as_slice(), session)?;
        let client = &mut self.clients[place];
        client.submit()
    }

    fn close(&mut self, session: usize) -> Result<Answer<A>, Fault>
        ensures { Plays self.old (Does acts.Close session) (played result) self.new }
    {
        let place = place_of(self.clients.as_slice(), session)?;
        let client = &mut self.clients[place];
        client.close()
    }

    fn enter(&mut self, session: usize) -> Result<Answer<A>, Fault>
        ensures { Plays self.old (Does acts.Enter session) (played result) self.new }
    {
        let place = place_of(self.clients.as_slice(), session)?;
        let client = &mut self.clients[place];
        client.enter(&mut self.core, session)
    }

    fn serial(&mut self, session: usize) -> Result<Answer<A>, Fault>
        ensures { Plays self.old (Does acts.Serial session) (played result) self.new }
    {
        let place = place_of(self.clients.as_slice(), session)?;
        let client = &mut self.clients[place];
        client.serial(&mut self.core, session)
    }

    fn get(&mut self, session: usize, table: &str, key: Key<A>) -> Result<Answer<A>, Fault>
        ensures { Played result (Starved self.old (Get session table.now (key_of key)) self.new) (λ answer. Plays self.old (Get session table.now (key_of key)) answer self.new) }
    {
        let place = place_of(self.clients.as_slice(), session)?;
        let table = place_named(self.core.schema(), table);
        let client = &self.clients[place];
        client.get(&mut self.core, session, table, &key)
    }

    fn scan(
        &mut self,
        session: usize,
        table: &str,
        lower: Option<Key<A>>,
        upper: Option<Key<A>>,
    ) -> Result<Answer<A>, Fault>
        ensures { Played result (Starved self.old (Scan session table.now (end_of lower) (end_of upper)) self.new) (λ answer. Plays self.old (Scan session table.now (end_of lower) (end_of upper)) answer self.new) }
    {
        let place = place_of(self.clients.as_slice(), session)?;
        let table = place_named(self.core.schema(), table);
        let client = &self.clients[place];
        client.scan(
            &mut self.core,
            session,
            table,
            lower.as_ref(),
            upper.as_ref(),
        )
    }

    // `put`, and `delete` where `row` is none.
    fn write(
        &mut self,
        session: usize,
        table: &str,
        key: Key<A>,
        row: Option<Row<A>>,
    ) -> Result<Answer<A>, Fault>
        ensures { PlayedIn self.old self.new result (IsOkAnd (client_of self.old.clients session) (WantsWrite self.old.world.settings.schema (object_named self.old.world.settings.schema table.now (key_of key)) row)) (λ answer. ByClient self.old session answer self.new (λ client next. Writes self.old.world.settings.schema (object_named self.old.world.settings.schema table.now (key_of key)) row client answer next)) }
    {
        let place = place_of(self.clients.as_slice(), session)?;
        let schema = self.core.schema();
        let table = place_named(schema, table);
        let client = &mut self.clients[place];
        client.write(schema, table, key, row)
    }

    fn alone(
        &mut self,
        session: usize,
        operations: Vec<Operation<'_, A>, A>,
    ) -> Result<Answer<A>, Fault>
        ensures { Played result (Starved self.old (Alone session (map operation_of operations.entry.items)) self.new) (λ answer. Plays self.old (Alone session (map operation_of operations.entry.items)) answer self.new) }
    {
        let place = place_of(self.clients.as_slice(), session)?;
        let client = &mut self.clients[place];
        client.alone(self.alloc, self.core.schema(), operations)
    }

    fn forge(&mut self, session: usize, number: u64, start: u64) -> Result<Answer<A>, Fault>
        ensures { Plays self.old (Forge session number start) (played result) self.new }
    {
        let writes = RequestWrites::new(self.alloc);
        let item = Item::Request {
            number,
            start,
            writes,
        };
        self.call(Call::Enter { session, item })
    }

    fn read_raw(
        &mut self,
        session: usize,
        number: u64,
        start: u64,
        table: &str,
        key: Key<A>,
    ) -> Result<Answer<A>, Fault>
        ensures { Plays self.old (RawRead session number start table.now (key_of key)) (played result) self.new }
    {
        let table = place_named(self.core.schema(), table);
        self.call(Call::Read {
            session,
            number,
            start,
            table,
            key,
        })
    }

    fn checkpoint(&mut self) -> Result<Answer<A>, Fault>
        ensures { Plays self.old Checkpoint (played result) self.new }
    {
        self.call(Call::Checkpoint)
    }

    // A step of the store alone.
    fn call(&mut self, call: Call<A>) -> Result<Answer<A>, Fault>
        ensures { Played result (PutOff call self.old self.new) (λ answer. ByStore self.old (event_of call) answer self.new) }
    {
        Ok(Answer::Replied(self.core.take(call)))
    }
}

impl<A: Allocator> Replay<A> {
    /// The store.
    pub fn core(&self) -> &Core<A>
        ensures { result.now.world ≡ self.now.world }
    {
        &self.core
    }

    // What there is.
    fn counts(&self) -> Counts
        ensures { result ≡ counts_of self.now.world }
    {
        Counts {
            counter: self.core.tnc(),
            low: self.core.low(),
            log: self.core.log().len(),
            state: self.core.table().len(),
            active: self.core.active(),
        }
    }
}
