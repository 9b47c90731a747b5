//! A core with the file of its cases.
ghost use Rattle.std.specs.Prelude.{◌≡◌, ◌<◌, ◌⊎◌, ℕ, length, IfOk, IfErr, IfSome, MatchResult, None, option_map};
ghost use Rattle.std.specs.Arc.{arc_value};
ghost use Rattle.boxcar.specs.Table.{Shows};
ghost use Rattle.occ_types.specs.declared.fault.Fault.TheVariants.{Memory, StoreBusy};
ghost use Rattle.occ_model.specs.Step.{folded};
ghost use Rattle.occ_model.specs.World.{opened, resumed, active_count};
ghost use Rattle.occ_core.specs.Resuming.{resume_fault, CannotGoOn};
ghost use Rattle.occ_core.specs.Totals.{no_totals};
ghost use Rattle.occ_filed.specs.Filed.{AreTied, token_of};

use crate::tokens::CaseTokens;
use occ_book::Base;
use occ_case::{CaseFile, CaseToken};
use occ_core::Core;
use occ_types::{Fault, Refused, Schema};
use std::alloc::{AllocError, Allocator};
use std::marker::Model;
use std::sync::Arc;

/// A core, the file of its cases, and of each session what shows the case of its last entry, where that was filed. The file may have
/// other owners, as those who judge its cases outside the lock that the core stands behind.
#[derive(Drop)]
pub struct FiledCore<A: Allocator> {
    pub(crate) core: Core<A>,
    pub(crate) file: Arc<CaseFile<A>, A>,
    pub(crate) tokens: CaseTokens<A>,
}

impl<A: Allocator> Model for FiledCore<A> {
    ghost use Rattle.std.specs.Coded.{codes};
    ghost use Rattle.std.specs.FinMap as finite;
    ghost use Rattle.boxcar.specs.Table.{shelves_coded, where_coded};
    ghost use Rattle.occ_filed.specs.Filed.{Filed, AreTied};

    ghost Value = { Filed };

    ghost coded = { Prim.hlevel (codes, finite.code, shelves_coded, where_coded) };

    ghost view = { λ f. record { world = f.core.world; totals = f.core.totals; file = f.file.value; tokens = f.tokens } };

    ghost invariant = { λ f. AreTied f.core.world f.file.value f.tokens };
}

impl<A: Allocator + Copy> FiledCore<A> {
    /// An empty store with these tables and so many sessions, numbered from 1, which keeps the last `keep` write sets for testing, and
    /// an empty file. Both may be any number that memory has room for. Refused with `Memory` where there is none for it, and the schema is handed back then.
    pub fn open(
        alloc: A,
        schema: Schema<A>,
        sessions: usize,
        keep: usize,
    ) -> Result<FiledCore<A>, Refused<Schema<A>>>
        ensures opened { IfOk result (λ filed. filed.world ≡ opened (record { schema = schema; sessions = sessions; keep = keep })) }
        ensures totals { IfOk result (λ filed. filed.totals ≡ no_totals 0) }
        ensures empty { IfOk result (λ filed. (session : ℕ) → token_of filed.tokens session ≡ None) }
        ensures handed_back { IfErr result (λ refused. (refused.value ≡ schema) × (refused.fault ≡ Memory)) }
    {
        let (file, tokens) = match room(alloc, sessions) {
            Ok(parts) => parts,
            Err(fault) => {
                return Err(Refused {
                    value: schema,
                    fault,
                });
            }
        };
        let core = Core::open(alloc, schema, sessions, keep)?;
        Ok(FiledCore { core, file, tokens })
    }
}

impl<A: Allocator + Copy> FiledCore<A> {
    /// A store that goes on from a base, as `Core::resume` makes it, with an empty file; and one more owner of the file, as for who judges
    /// cases of it. Refused as that is, and with `Memory` where there is none for the file; the schema and the base are handed back then.
    pub fn resume(
        alloc: A,
        schema: Schema<A>,
        sessions: usize,
        keep: usize,
        base: Base<A>,
        counter: u64,
    ) -> Result<(FiledCore<A>, Arc<CaseFile<A>, A>), Refused<(Schema<A>, Base<A>)>>
        ensures resumed { IfOk result (λ made. made.0.world ≡ resumed (record { schema = schema; sessions = sessions; keep = keep }) base.base counter) }
        ensures totals { IfOk result (λ made. made.0.totals ≡ no_totals base.base.place) }
        ensures fits { IfOk result (λ _. resume_fault schema sessions base counter ≡ None) }
        ensures empty { IfOk result (λ made. (session : ℕ) → token_of made.0.tokens session ≡ None) }
        ensures shared { IfOk result (λ made. arc_value made.1 ≡ made.0.file) }
        ensures fault { IfErr result (λ refused. (refused.fault ≡ Memory) ⊎ CannotGoOn schema sessions base counter refused.fault) }
        ensures handed_back { IfErr result (λ refused. refused.value ≡ (schema, base)) }
    {
        let (file, tokens, shared) = match shared_room(alloc, sessions) {
            Ok(parts) => parts,
            Err(fault) => {
                return Err(Refused {
                    value: (schema, base),
                    fault,
                });
            }
        };
        let core = Core::resume(alloc, schema, sessions, keep, base, counter)?;
        Ok((FiledCore { core, file, tokens }, shared))
    }
}

impl<A: Allocator> FiledCore<A> {
    /// What a store leaves for one that goes on from it, as `Core::into_base` tells. Refused as that is, and handed back then.
    pub fn into_base(self) -> Result<Base<A>, Refused<FiledCore<A>>>
    where
        A: Copy,
        ensures folded { IfOk result (λ base. base ≡ record { tables = length self.world.settings.schema; sessions = self.world.settings.sessions; base = folded self.world.base self.world.log }) }
        ensures state { IfOk result (λ base. base.base.state ≡ self.world.table) }
        ensures quiet { MatchResult result (λ _. active_count self.world ≡ 0) (λ refused. (0 < active_count self.world) × (refused.fault ≡ StoreBusy)) }
        ensures handed_back { IfErr result (λ refused. refused.value ≡ self) }
    {
        let FiledCore { core, file, tokens } = self;
        match core.into_base() {
            Ok(base) => Ok(base),
            Err(Refused { value, fault }) => Err(Refused {
                value: FiledCore {
                    core: value,
                    file,
                    tokens,
                },
                fault,
            }),
        }
    }

    /// What holds of every core with its file, between any two calls, for a caller to rest on: there is room for each session's token;
    /// and each is of the file, and shows the case of its session's latest row while that is open. It computes nothing.
    pub fn law(&self)
        ensures { AreTied self.now.world self.now.file self.now.tokens }
    {
        // It is opened by a look at its fields, and what its type says is known then.
        let _core = &self.core;
    }

    /// The core, for all that it shows. It has the law of `Core::law`.
    pub fn core(&self) -> &Core<A>
        ensures world { result.now.world ≡ self.now.world }
        ensures totals { result.now.totals ≡ self.now.totals }
    {
        &self.core
    }

    /// The file of the cases.
    pub fn case_file(&self) -> &CaseFile<A>
        ensures { result.now ≡ self.now.file }
    {
        &self.file
    }

    /// One more owner of the file, as for who judges cases of it. An error where it has too many owners to be counted.
    pub fn share_file(&self) -> Result<Arc<CaseFile<A>, A>, AllocError>
        ensures { IfOk result (λ shared. arc_value shared ≡ self.now.file) }
    {
        let shared = Arc::try_clone(&self.file)?;
        Ok(shared)
    }

    /// What shows the case of the session's last entry, to be judged; none where that was not filed. It takes no memory.
    pub fn token(&self, session: usize) -> Option<CaseToken<A>>
        ensures token { result ≡ token_of self.now.tokens session }
        ensures own { IfSome result (λ token. Shows self.now.file token) }
    {
        match self.tokens.get(session) {
            Some(token) => Some(token.again()),
            None => None,
        }
    }
}

// The parts that take memory beside the core: an empty file, and the tokens of so many sessions.
fn room<A: Allocator + Copy>(
    alloc: A,
    sessions: usize,
) -> Result<(Arc<CaseFile<A>, A>, CaseTokens<A>), Fault>
    ensures count { IfOk result (λ parts. length parts.1 ≡ sessions) }
    ensures none { IfOk result (λ parts. (session : ℕ) → token_of parts.1 session ≡ None) }
    ensures memory { IfErr result (λ fault. fault ≡ Memory) }
{
    let file = CaseFile::new(alloc)?;
    let file = Arc::new(alloc, file)?;
    let tokens = CaseTokens::new(alloc, sessions)?;
    Ok((file, tokens))
}

// The same, with one more owner of the file.
fn shared_room<A: Allocator + Copy>(
    alloc: A,
    sessions: usize,
) -> Result<(Arc<CaseFile<A>, A>, CaseTokens<A>, Arc<CaseFile<A>, A>), Fault>
    ensures count { IfOk result (λ parts. length parts.1 ≡ sessions) }
    ensures none { IfOk result (λ parts. (session : ℕ) → token_of parts.1 session ≡ None) }
    ensures shared { IfOk result (λ parts. arc_value parts.2 ≡ arc_value parts.0) }
    ensures memory { IfErr result (λ fault. fault ≡ Memory) }
{
    let (file, tokens) = room(alloc, sessions)?;
    let shared = Arc::try_clone(&file)?;
    Ok((file, tokens, shared))
}
