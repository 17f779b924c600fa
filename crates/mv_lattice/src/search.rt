// The search for the least closed flow.
ghost use Rattle.std.specs.Prelude.{◌≡◌, ℕ, ◌<◌, ◌≤◌, Option, length, IsTrue, IfOk, IfSome, IfNone, OnOk, IsErrOf, Contains, All, [], ◌∷◌, List, replicate, slice_set, sum, take, ◌⊎◌, true, false};
ghost use Rattle.mv_cfg.specs.Graph.{IsGraph};
ghost use Rattle.mv_lattice.specs.Flow.{IsAt, IsFlow, IsClosed, IsStated};
ghost use Rattle.mv_lattice.specs.Search.{IsNext, NoneBefore, Raises, ExceedsAt, FlowsIntoEach, Exceeds, IsVisit, Makes, EndsWith, MeetsLimit, MeetsNeed};
ghost use Rattle.mv_lattice.specs.Work.{HasLarge, HasChain, AllStated, IsLeastFlow, IsNewState, search_of, IsSearch, IsUnderway, OfEachStart};

use crate::flow::carry;
use crate::{Domain, StepError};
use mv_cfg::Cfg;
use std::alloc::{AllocError, Global};
use thiserror::Error;

/// Why no closed flow is found.
#[derive(Drop, Clone, Copy, PartialEq, Eq, Debug, Error)]
pub enum SolveError {
    /// There is no closed flow: a need of an instruction fails.
    #[error("a need fails")]
    Need,
    /// A state that would be stated is too large, or a block would be visited a 257th time.
    #[error("too complex")]
    TooComplex,
    /// An allocation failed.
    #[error("out of memory")]
    Memory,
}

impl From<AllocError> for SolveError {
    ghost use Rattle.mv_lattice.specs.declared.search.SolveError.TheVariants.{Memory};

    ghost from_gives = { λ _ e. e ≡ Memory };

    fn from(_: AllocError) -> Self {
        SolveError::Memory
    }
}

impl From<StepError> for SolveError {
    ghost use Rattle.mv_lattice.specs.declared.StepError.TheVariants.{Need as StepNeed};
    ghost use Rattle.mv_lattice.specs.declared.search.SolveError.TheVariants.{Need, TooComplex};

    ghost from_gives = { λ e why. (why ≡ Need → e ≡ StepNeed) × ¬ (why ≡ TooComplex) };

    fn from(e: StepError) -> Self {
        match e {
            StepError::Need => SolveError::Need,
            StepError::Memory => SolveError::Memory,
        }
    }
}

/// How often a block is visited at most.
const VISITS: u16 = 256;

/// The state, if it may be stated.
fn small<D: Domain>(d: &D, s: D::State) -> Result<D::State, SolveError>
    requires state { (D.order d.now).is_state s }
    ensures ok { IfOk result (λ r. (r ≡ s) × (D.order d.now).is_small s) }
    ensures need { ¬ IsErrOf result SolveError.Need }
    ensures large { IsErrOf result SolveError.TooComplex → ¬ (D.order d.now).is_small s }
{
    if d.fits(&s) {
        Ok(s)
    } else {
        Err(SolveError::TooComplex)
    }
}

/// The state of a block after `t` has flowed in, if it is a new one.
fn joined<D: Domain>(
    alloc: Global,
    d: &D,
    old: &Option<D::State>,
    t: &D::State,
) -> Result<Option<D::State>, SolveError>
    requires state { (D.order d.now).is_state t.now }
    requires old_state { (s : D.State) → old.now ≡ Option.Some s → (D.order d.now).is_state s }
    ensures ok { IfOk result (IsNewState (D.order d.now) old.now t.now) }
    ensures need { ¬ IsErrOf result SolveError.Need }
    ensures exceeds { IsErrOf result SolveError.TooComplex → (u : D.State) × (Raises (D.order d.now) t.now old.now u × ¬ (D.order d.now).is_small u) }
{
    match old {
        None => Ok(Some(small(d, d.copy(alloc, t)?)?)),
        Some(s) => {
            if d.leq(t, s) {
                return Ok(None);
            }
            Ok(Some(small(d, d.join(alloc, s, t)?)?))
        }
    }
}

/// Lets the state `t` flow into a block.
fn raise<D: Domain>(
    alloc: Global,
    d: &D,
    states: &mut [Option<D::State>],
    waiting: &mut [bool],
    n: usize,
    t: &D::State,
) -> Result<(), SolveError>
    requires inside { n < length states.old }
    requires marked { n < length waiting.old }
    requires state { (D.order d.now).is_state t.now }
    requires states { AllStated (D.order d.now).is_state states.old }
    ensures ok { OnOk result (FlowsIntoEach (D.order d.now) (Contains (n ∷ [])) t.now (search_of states.old waiting.old) (search_of states.new waiting.new)) }
    ensures need { ¬ IsErrOf result SolveError.Need }
    ensures exceeds { IsErrOf result SolveError.TooComplex → ExceedsAt (D.order d.now) t.now n states.old }
{
    if let Some(u) = joined(alloc, d, &states[n], t)? {
        states[n] = Some(u);
        waiting[n] = true;
    }
    Ok(())
}

/// Lets the state `t` flow into each of the blocks.
fn raise_all<D: Domain>(
    alloc: Global,
    d: &D,
    states: &mut [Option<D::State>],
    waiting: &mut [bool],
    blocks: &[usize],
    t: &D::State,
) -> Result<(), SolveError>
    requires inside { All (λ n. n < length states.old) blocks.now }
    requires marked { length waiting.old ≡ length states.old }
    requires state { (D.order d.now).is_state t.now }
    requires states { AllStated (D.order d.now).is_state states.old }
    ensures ok { OnOk result (FlowsIntoEach (D.order d.now) (Contains blocks.now) t.now (search_of states.old waiting.old) (search_of states.new waiting.new)) }
    ensures need { ¬ IsErrOf result SolveError.Need }
    ensures exceeds { IsErrOf result SolveError.TooComplex → (n : ℕ) × (Contains blocks.now n × ExceedsAt (D.order d.now) t.now n states.old) }
{
    for n in blocks {
        raise(alloc, d, states, waiting, *n, t)?;
    }
    Ok(())
}

/// Whether a state is stated, and is above `t`.
fn is_above<D: Domain>(d: &D, stated: &Option<D::State>, t: &D::State) -> bool
    requires state { (D.order d.now).is_state t.now }
    requires stated_state { (s : D.State) → stated.now ≡ Option.Some s → (D.order d.now).is_state s }
    ensures { IsTrue result → (s : D.State) × ((stated.now ≡ Option.Some s) × (D.order d.now).below t.now s) }
{
    match stated {
        Some(s) => d.leq(t, s),
        None => false,
    }
}

/// How many of the blocks, before the first other one, have a stated state above `t`.
fn count_above<D: Domain>(
    d: &D,
    states: &[Option<D::State>],
    blocks: &[usize],
    t: &D::State,
) -> usize
    requires inside { All (λ n. n < length states.now) blocks.now }
    requires state { (D.order d.now).is_state t.now }
    requires states { AllStated (D.order d.now).is_state states.now }
    ensures within { result ≤ length blocks.now }
    ensures above { All (λ n. (s : D.State) × (IsStated states.now n s × (D.order d.now).below t.now s)) (take result blocks.now) }
{
    for (i, n) in blocks.iter().enumerate() {
        if !is_above(d, &states[*n], t) {
            return i;
        }
    }
    blocks.len()
}

/// Lets the state `t` flow into each of the blocks. It is copied once, if a block's state isn't above it: a state that comes out of
/// a block may have a form in which it is dear to ask, and its copy is asked for that block and those after it.
fn raise_each<D: Domain>(
    alloc: Global,
    d: &D,
    states: &mut [Option<D::State>],
    waiting: &mut [bool],
    blocks: &[usize],
    t: &D::State,
) -> Result<(), SolveError>
    requires inside { All (λ n. n < length states.old) blocks.now }
    requires marked { length waiting.old ≡ length states.old }
    requires state { (D.order d.now).is_state t.now }
    requires states { AllStated (D.order d.now).is_state states.old }
    ensures ok { OnOk result (FlowsIntoEach (D.order d.now) (Contains blocks.now) t.now (search_of states.old waiting.old) (search_of states.new waiting.new)) }
    ensures need { ¬ IsErrOf result SolveError.Need }
    ensures exceeds { IsErrOf result SolveError.TooComplex → (n : ℕ) × (Contains blocks.now n × ExceedsAt (D.order d.now) t.now n states.old) }
{
    let above = count_above(d, states, blocks, t);
    if above == blocks.len() {
        return Ok(());
    }
    let copied = d.copy(alloc, t)?;
    raise_all(alloc, d, states, waiting, &blocks[above..], &copied)
}

/// Carries the state of a block through it, and lets what comes out flow into its successors.
fn visit<D: Domain>(
    alloc: Global,
    d: &D,
    g: &Cfg,
    k: usize,
    states: &mut [Option<D::State>],
    waiting: &mut [bool],
) -> Result<(), SolveError>
    requires graph { IsGraph g.now (D.order d.now).size }
    requires inside { k < length g.now.blocks.items }
    requires entries { length states.old ≡ length g.now.blocks.items }
    requires marks { length waiting.old ≡ length g.now.blocks.items }
    requires states { AllStated (D.order d.now).is_state states.old }
    requires stated { (s : D.State) × IsAt states.old k (Option.Some s) }
    ensures ok { OnOk result (IsVisit (D.order d.now) g.now k (search_of states.old waiting.old) (search_of states.new waiting.new)) }
    ensures fails { IsErrOf result SolveError.Need → Makes (D.order d.now) g.now k states.old Option.None }
    ensures exceeds { IsErrOf result SolveError.TooComplex → Exceeds (D.order d.now) g.now k states.old }
{
    let block = &g.blocks[k];
    let Some(s) = &states[k] else {
        return Ok(());
    };
    let begin = d.copy(alloc, s)?;
    let t = carry(alloc, d, block, begin)?;
    raise_each(alloc, d, states, waiting, &block.successors, &t)
}

/// The first block that waits, where none before `from` does.
fn first_waiting(waiting: &[bool], from: usize) -> Option<usize>
    requires before { NoneBefore waiting.now from }
    ensures some { IfSome result (λ k. IsAt waiting.now k true) }
    ensures first { IfSome result (NoneBefore waiting.now) }
    ensures none { IfNone result (NoneBefore waiting.now (length waiting.now)) }
{
    for k in from..waiting.len() {
        if waiting[k] {
            return Some(k);
        }
    }
    None
}

/// The least of a block and its successors.
fn least_of(k: usize, successors: &[usize]) -> usize
    ensures own { result ≤ k }
    ensures each { All (λ n. result ≤ n) successors.now }
{
    let mut least = k;
    for n in successors {
        least = least.min(*n);
    }
    least
}

/// Visits the first block that waits, unless it has been visited as often as it may be. Before the block that is returned none waits
/// then.
fn turn<D: Domain>(
    alloc: Global,
    d: &D,
    g: &Cfg,
    k: usize,
    states: &mut [Option<D::State>],
    waiting: &mut [bool],
    left: &mut [u16],
) -> Result<usize, SolveError>
    requires next { IsNext (search_of states.old waiting.old) k }
    requires graph { IsGraph g.now (D.order d.now).size }
    requires same { (D.order d.now).is_graph g.now }
    requires marks { length waiting.old ≡ length g.now.blocks.items }
    requires lefts { length left.old ≡ length g.now.blocks.items }
    requires search { IsUnderway (D.order d.now) g.now left.old states.old waiting.old }
    ensures search { OnOk result (OfEachStart (D.order d.now) g.now left.old states.old waiting.old
        (λ start. IsSearch (D.order d.now) g.now start left.new states.new waiting.new)) }
    ensures fails { IsErrOf result SolveError.Need → OfEachStart (D.order d.now) g.now left.old states.old waiting.old (MeetsNeed (D.order d.now) g.now) }
    ensures limit { IsErrOf result SolveError.TooComplex → OfEachStart (D.order d.now) g.now left.old states.old waiting.old (MeetsLimit (D.order d.now) g.now) }
    ensures fewer { OnOk result (sum left.new < sum left.old) }
    ensures rest { IfOk result (NoneBefore waiting.new) }
{
    if left[k] == 0 {
        return Err(SolveError::TooComplex);
    }
    left[k] -= 1;
    waiting[k] = false;
    visit(alloc, d, g, k, states, waiting)?;
    Ok(least_of(k, &g.blocks[k].successors))
}

/// Visits blocks, the first that waits each time, until none waits.
fn search_flow<D: Domain>(
    alloc: Global,
    d: &D,
    g: &Cfg,
    states: &mut [Option<D::State>],
    waiting: &mut [bool],
    left: &mut [u16],
) -> Result<(), SolveError>
    requires graph { IsGraph g.now (D.order d.now).size }
    requires same { (D.order d.now).is_graph g.now }
    requires marks { length waiting.old ≡ length g.now.blocks.items }
    requires lefts { length left.old ≡ length g.now.blocks.items }
    requires search { IsUnderway (D.order d.now) g.now left.old states.old waiting.old }
    ensures search { OnOk result (OfEachStart (D.order d.now) g.now left.old states.old waiting.old
        (λ start. IsSearch (D.order d.now) g.now start left.new states.new waiting.new)) }
    ensures fails { IsErrOf result SolveError.Need → OfEachStart (D.order d.now) g.now left.old states.old waiting.old (MeetsNeed (D.order d.now) g.now) }
    ensures limit { IsErrOf result SolveError.TooComplex → OfEachStart (D.order d.now) g.now left.old states.old waiting.old (MeetsLimit (D.order d.now) g.now) }
    ensures rests { OnOk result (NoneBefore waiting.new (length waiting.new)) }
{
    let mut from = 0;
    while let Some(k) = first_waiting(waiting, from) {
        from = turn(alloc, d, g, k, states, waiting, left)?;
    }
    Ok(())
}

/// So many blocks, the first with this state and the others with none.
fn first_states<S: Drop>(alloc: Global, n: usize, first: S) -> Result<Vec<Option<S>>, AllocError>
    requires { 0 < n }
    ensures { IfOk result (λ v. v.items ≡ slice_set (replicate n Option.None) 0 (Option.Some first)) }
{
    let mut states = Vec::new(alloc);
    for _ in 0..n {
        states.push(None)?;
    }
    states[0] = Some(first);
    Ok(states)
}

/// So many marks, of which the first alone is set.
fn first_marks(alloc: Global, n: usize) -> Result<Vec<bool>, AllocError>
    requires { 0 < n }
    ensures { IfOk result (λ v. v.items ≡ slice_set (replicate n false) 0 true) }
{
    let mut marks = vec![in alloc; false; n]?;
    marks[0] = true;
    Ok(marks)
}

/// So many full counts of visits.
fn first_counts(alloc: Global, n: usize) -> Result<Vec<u16>, AllocError>
    ensures { IfOk result (λ v. v.items ≡ replicate n 256) }
{
    vec![in alloc; VISITS; n]
}

/// The flow with which this search ends: the least closed flow above the start state (`search_is_least`). The search begins with
/// the start state stated for block 0, which waits. Of the blocks that wait, it always visits the one with the least first
/// instruction, which then waits no more, and carries its state through it. If a successor's state is not above what comes out,
/// it is replaced by their join; if a successor has no state, what comes out is stated for it. Then the successor waits.
///
/// # Errors
/// `Need` if the search comes to a block in which a need fails. `TooComplex` if it would visit a block for the 257th time, or
/// would state a state that does not meet `fits`; what comes out of a block may be of any size if it is below the stated state.
/// `Memory` if an allocation failed.
pub fn solve<D: Domain>(
    alloc: Global,
    d: &D,
    g: &Cfg,
    start: &D::State,
) -> Result<Vec<Option<D::State>>, SolveError>
    requires graph { IsGraph g.now (D.order d.now).size }
    requires same { (D.order d.now).is_graph g.now }
    requires start { (D.order d.now).is_state start.now }
    requires begins { (D.order d.now).may_begin start.now }
    ensures ends { IfOk result (λ v. EndsWith (D.order d.now) g.now start.now v.items) }
    ensures fails { IsErrOf result SolveError.Need → MeetsNeed (D.order d.now) g.now start.now }
    ensures limit { IsErrOf result SolveError.TooComplex → MeetsLimit (D.order d.now) g.now start.now }
{
    let first = small(d, d.copy(alloc, start)?)?;
    let n = g.blocks.len();
    let mut states = first_states(alloc, n, first)?;
    let mut waiting = first_marks(alloc, n)?;
    let mut left = first_counts(alloc, n)?;
    search_flow(alloc, d, g, &mut states, &mut waiting, &mut left)?;
    Ok(states)
}

/// How a search ends. Its flow is closed, and below every closed flow; its states are small, and a block may begin with each. If a
/// need ends the search, there is no closed flow. If a limit ends it, some state with which a block may begin is too large, or 257
/// of these states form an ascending chain.
pub fn search_is_least<D: Domain>(d: &D, g: &Cfg, start: &D::State)
    requires graph { IsGraph g.now (D.order d.now).size }
    requires same { (D.order d.now).is_graph g.now }
    requires start { (D.order d.now).is_state start.now }
    requires begins { (D.order d.now).may_begin start.now }
    ensures found { (flow : List (Option D.State)) → EndsWith (D.order d.now) g.now start.now flow
        → IsLeastFlow (D.order d.now) g.now start.now flow }
    ensures need { MeetsNeed (D.order d.now) g.now start.now → (flow : List (Option D.State)) → IsFlow (D.order d.now) g.now flow
        → ¬ IsClosed (D.order d.now) g.now start.now flow }
    ensures complex { MeetsLimit (D.order d.now) g.now start.now → HasLarge (D.order d.now) ⊎ HasChain (D.order d.now) }
{}
