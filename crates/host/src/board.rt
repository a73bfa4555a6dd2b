// What stands behind the lock.

ghost use Rattle.std.specs.Prelude.{◌≡◌, ◌≤◌, ◌<◌, ◌/◌, ◌||◌, ◌&&◌, ◌⊎◌, [], true, false, not, IsTrue, IfErr, IfNone, IfOk, IfSome, None, Some, OnOk, count_by, length, max, slice_get};
ghost use Rattle.base.specs.declared.item.Event.TheVariants as event;
ghost use Rattle.base.specs.Accepted.{is_target};
ghost use Rattle.base.specs.Items.{plan};
ghost use Rattle.base.specs.Limits.{most_items};
ghost use Rattle.base.specs.Machine.{HasEnded, enabled};
ghost use Rattle.device.specs.Jobs.{IsIssuedDone};
ghost use Rattle.device.specs.Room.{IsAnswerWithin};
ghost use Rattle.device.specs.Run.{state_of};
ghost use Rattle.host.specs.Handing.{is_handed};
ghost use Rattle.host.specs.Idle.{AreWorkersIdle, IsHostIdle, IsNoTargetHere, is_for_workers, turn_of};
ghost use Rattle.host.specs.Looks.{HasJob, HasNoMoreToHand, HaveSent, IsClosing, IsEventOf, IsForWorker, IsHandStop, IsHanding, IsHostLook, IsLook, WantsTheHost};
ghost use Rattle.host.specs.Origins.{IsFrom, IsOf, one_origin, one_program};
ghost use Rattle.host.specs.Sent.{AreOwn, IsSent, one_sent, open_count};
ghost use Rattle.host.specs.Stops.{HasCause, IsCause, IsEndFault, IsOver, IsPlain, StaysStopped, fault_of, first_stop, lack_at, one_cause};
ghost use Rattle.host.specs.Threads.{IsThreadAnswer, IsThreadFault};

use crate::channel::{Inbox, Numbered, Outbox};
use crate::origin::Origin;
use base::fault::RunFault;
use base::item::{Answer, Event, Item, ItemKind};
use device::{Job, RunState};
use kernel::Done;
use lower::Image;
use std::alloc::Global;
use std::marker::PhantomData;
use std::sync::Wait;

impl Numbered for Job<'_> {
    ghost use Rattle.host.specs.Sent.{item_of};

    ghost number = { item_of };

    ghost told = { λ b. b };

    ghost one = { λ a b e. e };
}

/// Why a run on threads stops before its end.
#[derive(Drop)]
pub enum Stop {
    OutOfMemory,
    /// The opening of this item would create more cells than its device has room for.
    DeviceFull(u32),
    /// What was computed is not what was asked for.
    Stranger,
    ThreadNotStarted,
    /// The channel did not take the job of an item that was opened.
    JobBack,
}

/// What a look at the board says.
#[derive(Drop)]
pub enum Look<'a> {
    /// The run is over.
    Stop,
    /// There is nothing to do as yet.
    Wait,
    /// An event was done, and there may be more to do.
    Again,
    /// An item was opened for the one that looked.
    Do(Job<'a>),
}

/// A run; the first cause to stop it, after which no event is done; and, as long as the run goes on, the sending end
/// of the jobs. The state is of the run that the parameter `B` names. Where an opening did not fit, it is the state
/// in which that opening may happen. The jobs ever sent are those of the items that were opened for workers, in
/// order; and as long as such an item is open, its job is what was issued for it.
#[derive(Drop)]
pub struct Board<'a, B: Origin> {
    image: &'a Image<'a>,
    state: RunState<'a>,
    stop: Option<Stop>,
    jobs: Option<Outbox<Job<'a>, B>>,
    // How many items for workers are open, and how many may be.
    open_items: usize,
    workers: usize,
    of: PhantomData<B>,
    ghost program: { IsOf image.now state } by { one_program image.now state },
    ghost origin: { IsFrom B.start state } by { one_origin B.start state },
    ghost cause: { HasCause state stop } by { one_cause state stop },
    ghost sent: { IsSent state stop jobs } by { one_sent state stop jobs },
    ghost count: { open_items ≡ open_count state },
}

// Whether an item is a target for which the host waits: the workers open it where the host stands at it.
fn is_host_target(item: &Item) -> bool
    ensures { result ≡ not item.now.deferred && is_target item.now.kind }
{
    !item.deferred && matches!(item.kind, ItemKind::Target)
}

// Whether the workers open and close an item.
fn is_handed(item: &Item) -> bool
    ensures { result ≡ is_handed item.now }
{
    item.deferred || matches!(item.kind, ItemKind::Target)
}

/// How many items are for workers.
pub fn handed_count(items: &[Item]) -> usize
    ensures { result ≡ count_by is_handed items.now }
{
    let mut count = 0;
    for item in items {
        if is_handed(item) {
            count += 1;
        }
    }
    count
}

// The event that the host does where it stands; none at a target, which the workers open and close.
fn event_at(items: &[Item], place: usize) -> Option<Event>
    requires { length items.now ≤ most_items }
    ensures { result ≡ turn_of place (slice_get items.now place) }
{
    let Some(item) = items.get(place) else {
        return Some(Event::End);
    };
    let number = u32::try_from(place).ok()?;
    match item.kind {
        _ if item.deferred => Some(Event::Gen(number)),
        ItemKind::Wait => Some(Event::Wait(number)),
        ItemKind::Target => None,
        _ => Some(Event::Open(number)),
    }
}

// The fault that a run answers.
fn answered(stop: Stop) -> RunFault
    ensures { result ≡ fault_of stop }
{
    match stop {
        Stop::OutOfMemory => RunFault::OutOfMemory,
        Stop::DeviceFull(_) => RunFault::DeviceFull,
        Stop::Stranger => RunFault::Stranger,
        Stop::ThreadNotStarted => RunFault::ThreadNotStarted,
        Stop::JobBack => RunFault::OtherState,
    }
}

// Why a run stops where an item is not opened.
fn stop_at(item: u32, fault: RunFault) -> Stop
    ensures { result ≡ lack_at item fault }
{
    match fault {
        RunFault::DeviceFull => Stop::DeviceFull(item),
        _ => Stop::OutOfMemory,
    }
}

// What a run that was not stopped has come to.
fn answer_of(alloc: Global, state: &RunState<'_>) -> Result<Answer, RunFault>
    ensures answer { IfOk result (IsThreadAnswer state.now.program state.now.input) }
    ensures within { IfOk result (IsAnswerWithin state.now.program state.now.input state.now.capacity) }
    ensures cause { IfErr result (IsEndFault None state.now) }
    ensures fault { IfErr result (IsThreadFault state.now.program state.now.input state.now.capacity) }
{
    state.is_reached();
    if !state.has_ended() {
        return Err(RunFault::OtherState);
    }
    match state.answer(alloc) {
        Ok(answer) => Ok(answer),
        Err(_) => Err(RunFault::OutOfMemory),
    }
}

impl<'a, B: Origin> Board<'a, B> {
    /// The board of a run that has done nothing, with a sending end that has sent nothing, for so many workers.
    pub fn new(
        image: &'a Image<'a>,
        state: RunState<'a>,
        jobs: Outbox<Job<'a>, B>,
        workers: usize,
    ) -> Self
        requires program { IsOf image.now state }
        requires start { IsFrom B.start state }
        requires begins { (state.history ≡ []) × (jobs ≡ []) }
        ensures state { (result.state ≡ state.entry) × (result.workers ≡ workers) }
        ensures goes { (result.stop ≡ None) × (result.jobs ≡ Some []) }
    {
        state.is_reached();
        Board {
            image,
            state,
            stop: None,
            jobs: Some(jobs),
            open_items: 0,
            workers,
            of: PhantomData,
        }
    }

    /// How many workers there are for each open item of theirs.
    pub fn share(&self) -> usize
        ensures { result ≡ self.now.workers / max 1 (open_count self.now.state) }
    {
        self.workers / self.open_items.max(1)
    }

    // Stops the run for a cause that may lie in its state. The first cause is kept, and no more jobs are sent.
    fn halt(&mut self, stop: Stop)
        requires { IsCause self.old.state stop }
        ensures first { self.new.stop ≡ first_stop self.old.stop stop }
        ensures state { (self.new.state ≡ self.old.state) × (self.new.workers ≡ self.old.workers) }
        ensures closed { self.new.jobs ≡ None }
    {
        drop(self.jobs.take());
        if self.stop.is_none() {
            self.stop = Some(stop);
        }
    }

    /// Stops the run. The first cause is kept, and no more jobs are sent.
    pub fn stop(&mut self, stop: Stop)
        requires { IsPlain stop }
        ensures first { self.new.stop ≡ first_stop self.old.stop stop }
        ensures state { self.new.state ≡ self.old.state }
        ensures closed { self.new.jobs ≡ None }
    {
        self.halt(stop);
    }

    // Whether there is nothing more to do.
    fn is_over(&self) -> bool
        ensures over { result ≡ true → IsOver self.now.stop self.now.state }
        ensures goes { result ≡ false → self.now.stop ≡ None }
        ensures on { result ≡ false → IsOver self.now.stop self.now.state → ⊥ }
    {
        self.stop.is_some() || self.state.has_ended()
    }

    // The target at which the host stands, if a worker may open it.
    fn target_here(&self) -> Option<u32>
        ensures may { IfSome result (λ item. IsTrue (enabled (plan self.now.state.program) (state_of self.now.state) (event.Open item))) }
        ensures here { IfSome result (λ item. (state_of self.now.state).place ≡ item) }
        ensures own { IfSome result (λ item. is_for_workers (plan self.now.state.program) (event.Open item) ≡ true) }
        ensures none { IfNone result (IsNoTargetHere (plan self.now.state.program) (state_of self.now.state)) }
    {
        let place = self.state.place();
        let item = self.image.items().get(place)?;
        let number = u32::try_from(place).ok()?;
        if is_host_target(item) && self.state.is_enabled(Event::Open(number)) {
            Some(number)
        } else {
            None
        }
    }

    // The lowest item that a worker may open; a deferred one lies before the host's place.
    fn next_for_worker(&self) -> Option<u32>
        ensures may { IfSome result (λ item. IsTrue (enabled (plan self.now.state.program) (state_of self.now.state) (event.Open item))) }
        ensures next { IfSome result (IsForWorker self.now.state) }
        ensures own { IfSome result (λ item. is_for_workers (plan self.now.state.program) (event.Open item) ≡ true) }
        ensures none { IfNone result (AreWorkersIdle (plan self.now.state.program) (state_of self.now.state)) }
    {
        match self.state.next_task(0) {
            Some(item) => Some(item),
            None => self.target_here(),
        }
    }

    /// Whether the host may do its next event, or the run is over. Where neither, it need not be called.
    pub fn calls_host(&self) -> bool
        ensures idle { result ≡ false → IsHostIdle (plan self.now.state.program) (state_of self.now.state) }
        ensures goes { result ≡ false → IsOver self.now.stop self.now.state → ⊥ }
        ensures wanted { result ≡ true → WantsTheHost self.now.stop self.now.state }
    {
        self.is_over() || self.next_for_host().is_some()
    }

    // The host's next event, if it may happen.
    fn next_for_host(&self) -> Option<Event>
        ensures may { IfSome result (λ e. IsTrue (enabled (plan self.now.state.program) (state_of self.now.state) e)) }
        ensures own { IfSome result (λ e. is_for_workers (plan self.now.state.program) e ≡ false) }
        ensures none { IfNone result (IsHostIdle (plan self.now.state.program) (state_of self.now.state)) }
    {
        let event = event_at(self.image.items(), self.state.place())?;
        if self.state.is_enabled(event) {
            Some(event)
        } else {
            None
        }
    }

    // Opens an item of the host.
    fn open(&mut self, item: u32) -> Look<'a>
        requires goes { (self.old.stop ≡ None) × (is_for_workers (plan self.old.state.program) (event.Open item) ≡ false) }
        requires may { IsTrue (enabled (plan self.old.state.program) (state_of self.old.state) (event.Open item)) }
        ensures found { IsLook self.old.stop self.old.state result self.new.stop self.new.state }
        ensures item { IsEventOf (event.Open item) self.old.state result self.new.state }
    {
        self.state.is_reached();
        match self.state.open(item) {
            Ok(job) => Look::Do(job),
            Err(fault) => {
                self.halt(stop_at(item, fault));
                Look::Stop
            }
        }
    }

    // Does an event of the host.
    fn happen(&mut self, event: Event) -> Look<'a>
        requires goes { (self.old.stop ≡ None) × (is_for_workers (plan self.old.state.program) event ≡ false) }
        requires may { IsTrue (enabled (plan self.old.state.program) (state_of self.old.state) event) }
        ensures found { IsLook self.old.stop self.old.state result self.new.stop self.new.state }
        ensures event { IsEventOf event self.old.state result self.new.state }
    {
        if let Event::Open(item) = event {
            return self.open(item);
        }
        self.state.is_reached();
        match self.state.take(event) {
            Ok(()) => {
                if self.state.has_ended() {
                    self.jobs = None;
                }
                Look::Again
            }
            Err(_) => {
                self.halt(Stop::OutOfMemory);
                Look::Stop
            }
        }
    }

    // Opens an item for a worker, and sends its job. Where the job comes back, the run stops at once: an item is open
    // whose job was not sent.
    fn hand<R: Wait>(&mut self, rt: &R, item: u32) -> Look<'a>
        requires goes { (self.old.stop ≡ None) × (open_count self.old.state < self.old.workers) }
        requires next { IsForWorker self.old.state item × (is_for_workers (plan self.old.state.program) (event.Open item) ≡ true) }
        requires may { IsTrue (enabled (plan self.old.state.program) (state_of self.old.state) (event.Open item)) }
        ensures handed { IsHanding self.old.workers self.old.stop self.old.state self.old.jobs result self.new.stop self.new.state self.new.jobs }
        ensures workers { self.new.workers ≡ self.old.workers }
    {
        self.state.is_reached();
        let Some(jobs) = &mut self.jobs else {
            return Look::Stop;
        };
        match self.state.open(item) {
            Ok(job) => {
                self.open_items += 1;
                match jobs.send(rt, job) {
                    Ok(()) => Look::Again,
                    Err(_) => {
                        self.jobs = None;
                        self.stop = Some(Stop::JobBack);
                        Look::Stop
                    }
                }
            }
            Err(fault) => {
                self.halt(stop_at(item, fault));
                Look::Stop
            }
        }
    }

    /// Opens the lowest item that workers may open, where fewer items of theirs are open than there are workers, and
    /// sends its job.
    pub fn hand_next<R: Wait>(&mut self, rt: &R) -> Look<'a>
        ensures handed { IsHanding self.old.workers self.old.stop self.old.state self.old.jobs result self.new.stop self.new.state self.new.jobs }
        ensures workers { self.new.workers ≡ self.old.workers }
        ensures stopped { StaysStopped self.old.stop self.old.state self.new.stop self.new.state }
    {
        if self.is_over() {
            return Look::Stop;
        }
        if self.open_items >= self.workers {
            return Look::Wait;
        }
        match self.next_for_worker() {
            None => Look::Wait,
            Some(item) => self.hand(rt, item),
        }
    }

    /// Opens items for workers and sends their jobs, until none may be opened as yet or the run is over. The answer
    /// is how many were sent.
    #[tactic(auto, using(crate::proofs::Stopping::stays, crate::proofs::Stopping::stays_on))]
    pub fn hand_out<R: Wait>(&mut self, rt: &R) -> usize
        ensures none { HasNoMoreToHand self.new.workers self.new.stop self.new.state }
        ensures workers { self.new.workers ≡ self.old.workers }
        ensures stopped { StaysStopped self.old.stop self.old.state self.new.stop self.new.state }
        ensures stop { IsHandStop self.old.stop self.new.stop }
        ensures sent { HaveSent self.old.jobs result self.new.jobs }
    {
        let open_before = self.open_items;
        for _ in rt.forever() {
            let Look::Again = self.hand_next(rt) else {
                return self.open_items.saturating_sub(open_before);
            };
        }
        unreachable!()
    }

    /// The host does its next event.
    pub fn look_as_host(&mut self) -> Look<'a>
        ensures found { IsLook self.old.stop self.old.state result self.new.stop self.new.state }
        ensures own { IsHostLook self.old.state result self.new.state }
        ensures stopped { StaysStopped self.old.stop self.old.state self.new.stop self.new.state }
    {
        if self.is_over() {
            return Look::Stop;
        }
        match self.next_for_host() {
            None => Look::Wait,
            Some(event) => self.happen(event),
        }
    }

    /// Closes the item that was computed, unless the run was stopped. What was not asked for closes none, and stops
    /// the run.
    pub fn close(&mut self, done: &Done<'_, '_, 'a>)
        ensures { IsClosing self.old.stop self.old.state done.now.region.now done.now.frame.now self.new.stop self.new.state }
    {
        if self.stop.is_some() {
            return;
        }
        if self.state.is_issued(done.region, done.frame) {
            self.close_issued(done);
        } else {
            self.halt(Stop::Stranger);
        }
    }

    // Closes an item with what was computed, which is known to be what was issued.
    fn close_issued(&mut self, done: &Done<'_, '_, 'a>)
        requires goes { self.old.stop ≡ None }
        requires issued { IsIssuedDone self.old.state done.now.region.now done.now.frame.now }
        ensures { IsClosing None self.old.state done.now.region.now done.now.frame.now self.new.stop self.new.state }
    {
        self.state.is_reached();
        match self.state.close_issued(done) {
            Ok(()) => {
                if is_handed(&self.image.items()[done.frame.item as usize]) {
                    self.open_items -= 1;
                }
            }
            Err(_) => self.halt(Stop::OutOfMemory),
        }
    }

    // What a worker received is what was issued, where a frame is issued for its item.
    fn has_sent(&mut self, inbox: Inbox<Job<'a>, B>) -> Inbox<Job<'a>, B>
        requires goes { self.old.stop ≡ None }
        ensures inbox { result ≡ inbox.entry }
        ensures goes { self.new.stop ≡ None }
        ensures same { self.new.state ≡ self.old.state }
        ensures own { HasEnded (plan self.old.state.program) (state_of self.old.state) ⊎ AreOwn self.old.state inbox.entry }
    {
        match &mut self.jobs {
            None => inbox,
            Some(jobs) => inbox.was_sent(jobs),
        }
    }

    /// Closes the item of a job that a worker received, unless the run was stopped. Nothing is compared: the job is what
    /// was issued for its item, as long as it is open.
    pub fn close_received(
        &mut self,
        inbox: Inbox<Job<'a>, B>,
        done: &Done<'_, '_, 'a>,
    ) -> Inbox<Job<'a>, B>
        requires { HasJob inbox done.now.region.now done.now.frame.now }
        ensures closing { IsClosing self.old.stop self.old.state done.now.region.now done.now.frame.now self.new.stop self.new.state }
        ensures inbox { result ≡ inbox.entry }
    {
        if self.stop.is_some() {
            return inbox;
        }
        let inbox = self.has_sent(inbox);
        self.state.is_reached();
        self.state.open_items_are_issued();
        if self.state.is_enabled(Event::Close(done.frame.item)) {
            self.close_issued(done);
        } else {
            self.halt(Stop::Stranger);
        }
        inbox
    }

    /// What the run has come to. `OtherState` is for a job that came back, and for a state that has not ended though
    /// nothing stopped the run.
    pub fn answer(self, alloc: Global) -> Result<Answer, RunFault>
        ensures origin { IsFrom B.start self.entry.state }
        ensures answer { IfOk result (IsThreadAnswer self.entry.state.program self.entry.state.input) }
        ensures within { IfOk result (IsAnswerWithin self.entry.state.program self.entry.state.input self.entry.state.capacity) }
        ensures goes { OnOk result (self.entry.stop ≡ None) }
        ensures cause { IfErr result (IsEndFault self.entry.stop self.entry.state) }
        ensures fault { IfErr result (IsThreadFault self.entry.state.program self.entry.state.input self.entry.state.capacity) }
    {
        let Board {
            image: _,
            state,
            stop,
            jobs: _,
            open_items: _,
            workers: _,
            of: _,
        } = self;
        state.is_reached();
        match stop {
            Some(stop) => Err(answered(stop)),
            None => answer_of(alloc, &state),
        }
    }
}
