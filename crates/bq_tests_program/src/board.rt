//! The board on small plans by hand, and on large ones by four threads.
ghost use Rattle.std.specs.Prelude.{◌≡◌, ◌<◌, ◌≤◌, length, All, IsTrue};
ghost use Rattle.bq_board.specs.Seats.{IsSeatOf, base_of, view_of};
ghost use Rattle.bq_board.specs.Conditions.{Owes, Holds, KeepsAll, KeepsOthers, HoldsIfWon};

use bq_board::{Board, Claim, MAX_SEATS, Parcel, Plan, PlanErr, Seat};
use std::alloc::{AllocError, Global};
use std::sync::atomic::{AtomicU64, Ordering};
use std::thread::{Threads, for_each_mut};

/// A parcel that says where it comes from and for which edge it was posted.
#[derive(Drop)]
struct Note {
    base: u64,
    source: usize,
    edge: usize,
}

impl Parcel for Note {
    type Base = u64;

    ghost belongs = { λ base m v. (v.base ≡ base) × (v.source ≡ m) };
}

fn ask(board: &Board<Note>, seat: &mut Seat<Note>, m: usize) -> Claim
    requires seat { IsSeatOf board.now seat.old }
    requires module { m < length board.now.plan }
    ensures seat { IsSeatOf board.now seat.new }
    ensures won { HoldsIfWon board.now.plan (view_of seat.new) m result }
    ensures keeps { KeepsAll board.now.plan (view_of seat.old) (view_of seat.new) }
{
    board.claim(seat, m)
}

// Fetches all edges into a module that was just won. Whether each parcel is the one that was posted for its edge.
fn collect(board: &Board<Note>, seat: &mut Seat<Note>, m: usize) -> bool
    requires seat { IsSeatOf board.now seat.old }
    requires module { m < length board.now.plan }
    requires holds { Holds board.now.plan (view_of seat.old) m }
    ensures seat { IsSeatOf board.now seat.new }
    ensures owes { Owes board.now.plan (view_of seat.new) m }
    ensures keeps { KeepsOthers board.now.plan (view_of seat.old) m (view_of seat.new) }
{
    let mut right = true;
    for e in board.plan().start(m)..board.plan().start(m + 1) {
        let note = board.fetch(seat, e);
        if note.edge != e {
            right = false;
        }
    }
    right
}

// Posts all edges out of a module, and finishes it.
fn deliver(board: &Board<Note>, base: u64, seat: &mut Seat<Note>, m: usize)
    requires seat { IsSeatOf board.now seat.old }
    requires base { base_of board.now ≡ base }
    requires module { m < length board.now.plan }
    requires owes { Owes board.now.plan (view_of seat.old) m }
    ensures seat { IsSeatOf board.now seat.new }
    ensures keeps { KeepsOthers board.now.plan (view_of seat.old) m (view_of seat.new) }
{
    for e in board.plan().edges_out(m) {
        let edge = *e as usize;
        board.post(
            seat,
            edge,
            Note {
                base,
                source: m,
                edge,
            },
        );
    }
    board.finish(seat, m);
}

// Claims a module that is to be won.
fn wins(board: &Board<Note>, seat: &mut Seat<Note>, m: usize) -> bool
    requires seat { IsSeatOf board.now seat.old }
    requires module { m < length board.now.plan }
    ensures seat { IsSeatOf board.now seat.new }
    ensures won { IsTrue result → Holds board.now.plan (view_of seat.new) m }
    ensures keeps { KeepsAll board.now.plan (view_of seat.old) (view_of seat.new) }
{
    match ask(board, seat, m) {
        Claim::Won => true,
        Claim::Taken => false,
        Claim::Waiting(_) => false,
    }
}

// Wins a module, and fetches all edges into it; if it is to end there, also posts all edges out of it, and finishes it. Whether each
// parcel was right, if the module was won.
fn load_module(
    board: &Board<Note>,
    base: u64,
    seat: &mut Seat<Note>,
    m: usize,
    ends: bool,
) -> Option<bool>
    requires seat { IsSeatOf board.now seat.old }
    requires base { base_of board.now ≡ base }
    ensures seat { IsSeatOf board.now seat.new }
{
    if m >= board.plan().modules() || !wins(board, seat, m) {
        return None;
    }
    let right = collect(board, seat, m);
    if ends {
        deliver(board, base, seat, m);
    }
    Some(right)
}

// A call of a seat by its letter, the module, and what it answers: a claim, a module that is loaded or whose edges are gathered, or how
// many modules are done.
type Step = (u8, usize, &'static str, u64);

fn claimed(claim: Claim) -> (&'static str, u64) {
    match claim {
        Claim::Won => ("won", 0),
        Claim::Taken => ("taken", 0),
        Claim::Waiting(edge) => ("waiting", edge as u64),
    }
}

fn loaded(name: &'static str, right: Option<bool>) -> (&'static str, u64) {
    match right {
        Some(right) => (name, u64::from(right)),
        None => ("not won", 0),
    }
}

fn answer(
    board: &Board<Note>,
    base: u64,
    seat: &mut Seat<Note>,
    letter: u8,
    m: usize,
) -> (&'static str, u64)
    requires seat { IsSeatOf board.now seat.old }
    requires base { base_of board.now ≡ base }
    ensures seat { IsSeatOf board.now seat.new }
{
    match letter {
        b'l' => loaded("loaded", load_module(board, base, seat, m, true)),
        b'g' => loaded("gathered", load_module(board, base, seat, m, false)),
        b'd' => ("done", board.done(seat)),
        _ => {
            if m >= board.plan().modules() {
                return ("no module", 0);
            }
            claimed(ask(board, seat, m))
        }
    }
}

// Whether each step of a script is answered so.
fn plays(board: &Board<Note>, base: u64, seat: &mut Seat<Note>, script: &[Step]) -> bool
    requires seat { IsSeatOf board.now seat.old }
    requires base { base_of board.now ≡ base }
    ensures seat { IsSeatOf board.now seat.new }
{
    for (letter, m, wanted, count) in script {
        let (name, number) = answer(board, base, seat, *letter, *m);
        if name != *wanted || number != *count {
            return false;
        }
    }
    true
}

// What each module loads.
#[derive(Clone, Copy)]
enum Loads {
    Rows(&'static [&'static [u32]]),
    // A chain of so many modules after the first, each loading the one before it 16 times; and a last one, which loads the one before it
    // so many times.
    Chain(u32, u32),
    // Up to 8 modules of a lower rank, in an order that differs with this number.
    Random(u64),
}

const MODULES: u32 = 2000;

// A number that looks random.
fn mixed(state: u64) -> u64 {
    let a = state ^ (state << 13);
    let b = a ^ (a >> 7);
    b ^ (b << 17)
}

fn rank(m: u32, seed: u64) -> u64 {
    u64::from(m).wrapping_mul(777).wrapping_add(seed) % 2000
}

fn drawn(seed: u64, m: u32, at: u32) -> Option<u32> {
    let place = seed.wrapping_mul(2000).wrapping_add(u64::from(m));
    let draw = place.wrapping_mul(8).wrapping_add(u64::from(at));
    let load = (mixed(draw.wrapping_add(1).wrapping_mul(0x9e37_79b9_7f4a_7c15)) % 2000) as u32;
    if at < 8 && rank(load, seed) < rank(m, seed) {
        return Some(load);
    }
    None
}

fn chained(modules: u32, times: u32, m: u32, at: u32) -> Option<u32> {
    let all = if m > modules { times } else { 16 };
    if m > 0 && at < all {
        return Some(m - 1);
    }
    None
}

impl Loads {
    fn modules(self) -> u32 {
        match self {
            Loads::Rows(rows) => rows.len().min(100) as u32,
            Loads::Chain(modules, _) => modules.saturating_add(2),
            Loads::Random(_) => MODULES,
        }
    }

    // One of up to 40 loads of a module, if it has that one.
    fn load(self, m: u32, at: u32) -> Option<u32> {
        match self {
            Loads::Rows(rows) => match rows.get(m as usize) {
                Some(row) => row.get(at as usize).copied(),
                None => None,
            },
            Loads::Chain(modules, times) => chained(modules, times, m, at),
            Loads::Random(seed) => drawn(seed, m, at),
        }
    }
}

fn row_of(alloc: Global, loads: Loads, m: u32) -> Result<Vec<u32>, AllocError> {
    let mut row = Vec::new(alloc);
    for at in 0..40 {
        match loads.load(m, at) {
            Some(load) => row.push(load)?,
            None => {}
        }
    }
    Ok(row)
}

fn rows_of(alloc: Global, loads: Loads) -> Result<Vec<Vec<u32>>, AllocError> {
    let mut rows = Vec::new(alloc);
    for m in 0..loads.modules() {
        rows.push(row_of(alloc, loads, m)?)?;
    }
    Ok(rows)
}

// How many modules and edges a plan has, or why there is none.
fn described(alloc: Global, plan: &Result<Plan, PlanErr>) -> Result<String, AllocError> {
    match plan {
        Ok(plan) => format!(in alloc; "{} modules, {} edges", plan.modules(), plan.edges()),
        Err(error) => format!(in alloc; "{error}"),
    }
}

// Whether the plan of these loads is described so.
fn is_planned(alloc: Global, loads: Loads, wanted: &str) -> Result<bool, AllocError> {
    let plan = Plan::new(alloc, rows_of(alloc, loads)?);
    let found = described(alloc, &plan);
    drop(plan);
    Ok(found?.as_str() == wanted)
}

#[test]
fn loads_make_a_plan_or_are_refused(rt: HostRuntime) -> Result<(), AllocError> {
    for (loads, wanted) in PLANS {
        assert!(rt; is_planned(rt.alloc(), Loads::Rows(*loads), wanted)?);
    }
    Ok(())
}

const PLANS: &[(&[&[u32]], &str)] = &[
    (&[], "0 modules, 0 edges"),
    (&[&[1], &[]], "2 modules, 1 edges"),
    (&[&[], &[0, 0], &[1]], "3 modules, 3 edges"),
    (&[&[0]], "P1 Cyclic"),
    (&[&[1], &[0]], "P1 Cyclic"),
    (&[&[2], &[]], "P2 BadIndex"),
    (&[&[1], &[0, 2]], "P2 BadIndex"),
];

#[test]
fn limits_of_plans(rt: HostRuntime) -> Result<(), AllocError> {
    for (modules, times, wanted) in CHAINS {
        assert!(rt; is_planned(rt.alloc(), Loads::Chain(*modules, *times), wanted)?);
    }
    Ok(())
}

const CHAINS: &[(u32, u32, &str)] = &[
    (16382, 33, "P3 TooMany"),
    (16383, 16, "P3 TooMany"),
    (16382, 32, "16384 modules, 262144 edges"),
];

// What seats do on a board.
#[derive(Clone, Copy)]
enum Task {
    // The first ones play these scripts, one after the other.
    Play(&'static [&'static [Step]]),
    // The first one loads module 0. The second one waits for it, and loads module 1, all of whose loads are posted by then.
    Meet,
    // All load all modules.
    Load,
}

// How much went wrong, and how often each module was loaded.
#[derive(Drop)]
struct Seen {
    wrong: AtomicU64,
    times: Vec<AtomicU64>,
}

impl Seen {
    fn new(alloc: Global, modules: u32) -> Result<Seen, AllocError> {
        let mut times = Vec::new(alloc);
        for _ in 0..modules {
            times.push(AtomicU64::new(0))?;
        }
        Ok(Seen {
            wrong: AtomicU64::new(0),
            times,
        })
    }

    fn note(&self, right: bool) {
        if !right {
            self.wrong.fetch_add(1, Ordering::SeqCst);
        }
    }

    // Notes whether a module was loaded rightly, if it was loaded.
    fn count(&self, m: usize, loaded: Option<bool>) {
        match (loaded, self.times.get(m)) {
            (Some(right), Some(times)) => {
                times.fetch_add(1, Ordering::SeqCst);
                self.note(right);
            }
            (loaded, _) => self.note(loaded.is_none()),
        }
    }

    // Whether nothing went wrong, and each module was loaded once.
    fn is_right(&self) -> bool {
        let once = self
            .times
            .iter()
            .all(|times| times.load(Ordering::SeqCst) == 1);
        once && self.wrong.load(Ordering::SeqCst) == 0
    }
}

fn takes(board: &Board<Note>, base: u64, seat: &mut Seat<Note>) -> bool
    requires seat { IsSeatOf board.now seat.old }
    requires base { base_of board.now ≡ base }
    ensures seat { IsSeatOf board.now seat.new }
{
    for _ in 0..MAX_TURNS {
        if board.done(seat) == 1 {
            break;
        }
    }
    match load_module(board, base, seat, 1, false) {
        Some(true) => board.done(seat) == 1,
        _ => false,
    }
}

const MAX_TURNS: u64 = 1_000_000_000;

// Loads one module after another until all are finished.
fn work(board: &Board<Note>, base: u64, seat: &mut Seat<Note>, seen: &Seen)
    requires seat { IsSeatOf board.now seat.old }
    requires base { base_of board.now ≡ base }
    ensures seat { IsSeatOf board.now seat.new }
{
    let modules = board.plan().modules();
    for _ in 0..MAX_ROUNDS {
        for m in 0..modules {
            seen.count(m, load_module(board, base, seat, m, true));
        }
        if board.done(seat) == modules as u64 {
            break;
        }
    }
}

// Rounds over all modules, far more than any run takes, so that a run ends by itself.
const MAX_ROUNDS: u64 = 100_000;

// What the seat with this number does.
fn act(
    board: &Board<Note>,
    base: u64,
    task: Task,
    number: usize,
    seat: &mut Seat<Note>,
    seen: &Seen,
)
    requires seat { IsSeatOf board.now seat.old }
    requires base { base_of board.now ≡ base }
    ensures seat { IsSeatOf board.now seat.new }
{
    match task {
        Task::Play(scripts) => match scripts.get(number) {
            Some(script) => seen.note(plays(board, base, seat, script)),
            None => {}
        },
        Task::Meet => {
            if number == 0 {
                let gave = load_module(board, base, seat, 0, true);
                seen.note(gave == Some(true));
            } else {
                seen.note(takes(board, base, seat));
            }
        }
        Task::Load => work(board, base, seat, seen),
    }
}

// All seats act, in up to four threads, each of which has seats that follow one another.
fn all_act<R: Threads + Sync>(
    rt: &R,
    board: &Board<Note>,
    base: u64,
    task: Task,
    seats: &mut [Seat<Note>],
    seen: &Seen,
)
    requires seats { All (λ s. IsSeatOf board.now s) seats.old }
    requires base { base_of board.now ≡ base }
    ensures seats { All (λ s. IsSeatOf board.now s) seats.new }
{
    for_each_mut(
        rt,
        seats,
        4,
        &|number, seat| act(board, base, task, number, seat, seen),
    );
}

// How many modules are done in the end. The board is closed.
fn ended(board: Board<Note>, mut seats: Vec<Seat<Note>>) -> Option<u64>
    requires { All (λ s. IsSeatOf board s) seats.items }
{
    let last = seats.pop();
    drop(seats);
    match last {
        Some(mut seat) => {
            let done = board.done(&mut seat);
            board.close(seat);
            Some(done)
        }
        None => None,
    }
}

// Loads of modules, a board of so many seats and of this base, what the seats do, and how many modules are to be loaded once.
#[derive(Clone, Copy)]
struct Game {
    loads: Loads,
    seats: usize,
    base: u64,
    task: Task,
    once: u32,
}

fn played<R: Threads + Sync>(
    rt: &R,
    alloc: Global,
    game: Game,
    seen: &Seen,
) -> Result<Option<u64>, PlanErr> {
    let plan = Plan::new(alloc, rows_of(alloc, game.loads)?)?;
    let seats = game.seats.clamp(1, MAX_SEATS);
    let (board, mut seats) = Board::open(alloc, plan, seats, &game.base)?;
    all_act(rt, &board, game.base, game.task, &mut seats, seen);
    Ok(ended(board, seats))
}

// Whether so many modules are done in the end, and nothing went wrong.
fn ends_with<R: Threads + Sync>(
    rt: &R,
    alloc: Global,
    game: Game,
    done: u64,
) -> Result<bool, PlanErr> {
    let seen = Seen::new(alloc, game.once)?;
    match played(rt, alloc, game, &seen)? {
        Some(found) => Ok(found == done && seen.is_right()),
        None => Ok(false),
    }
}

// Seats play these scripts on a board of so many seats.
fn script(loads: Loads, seats: usize, scripts: &'static [&'static [Step]]) -> Game {
    Game {
        loads,
        seats,
        base: 7,
        task: Task::Play(scripts),
        once: 0,
    }
}

#[test]
fn one_seat_loads_modules(rt: HostRuntime) -> Result<(), PlanErr> {
    let alloc = rt.alloc();
    let one = script(Loads::Rows(&[&[], &[0]]), 1, ONE);
    assert!(rt; ends_with(&rt, alloc, one, 2)?);
    let two = script(Loads::Rows(&[&[], &[0], &[0]]), 1, TWO);
    assert!(rt; ends_with(&rt, alloc, two, 2)?);
    Ok(())
}

// Module 1 loads module 0.
const ONE: &[&[Step]] = &[&[
    (b'c', 1, "waiting", 0),
    (b'l', 0, "loaded", 1),
    (b'c', 0, "taken", 0),
    (b'l', 1, "loaded", 1),
    (b'd', 0, "done", 2),
]];

// Two modules load module 0.
const TWO: &[&[Step]] = &[&[
    (b'c', 2, "waiting", 1),
    (b'l', 0, "loaded", 1),
    (b'l', 2, "loaded", 1),
    (b'g', 1, "gathered", 1),
    (b'd', 0, "done", 2),
]];

// Two of the most seats on the largest board.
#[test]
fn limits_of_boards(rt: HostRuntime) -> Result<(), PlanErr> {
    let game = script(Loads::Chain(16382, 32), MAX_SEATS, LARGEST);
    assert!(rt; MAX_SEATS == 257);
    assert!(rt; ends_with(&rt, rt.alloc(), game, 1)?);
    Ok(())
}

const LARGEST: &[&[Step]] = &[
    &[
        (b'c', 16383, "waiting", 262112),
        (b'l', 0, "loaded", 1),
        (b'd', 0, "done", 1),
    ],
    &[(b'c', 1, "won", 0), (b'd', 0, "done", 1)],
];

#[test]
fn a_seat_reads_what_another_wrote(rt: HostRuntime) -> Result<(), PlanErr> {
    let game = Game {
        loads: Loads::Rows(&[&[], &[0]]),
        seats: 2,
        base: 7,
        task: Task::Meet,
        once: 0,
    };
    assert!(rt; ends_with(&rt, rt.alloc(), game, 1)?);
    Ok(())
}

const RUNS: u64 = 200;

#[test]
fn four_threads_load_each_module_once(rt: HostRuntime) -> Result<(), PlanErr> {
    for seed in 0..RUNS {
        let game = Game {
            loads: Loads::Random(seed),
            seats: 4,
            base: seed,
            task: Task::Load,
            once: MODULES,
        };
        assert!(rt; ends_with(&rt, rt.alloc(), game, 2000)?, "seed {seed}");
    }
    Ok(())
}
