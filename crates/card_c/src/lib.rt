// The exports of the static library for programs in C and Ada: a supervisor, of either engine, and the contact debouncer, their state in lent
// bytes. Each calls the function of `card` with its name, and promises what that promises. A slice is passed as a pointer and a number of
// bytes, and lent slices do not overlap.
#![tactic(auto)]

ghost use Rattle.std.specs.Prelude.{◌++◌, ◌≡◌, length, drop};
ghost use Rattle.lists.specs.Lists.{bit};
ghost use Rattle.rules.specs.Questions.{refusal_in, number_in, yes_in, count_whole, callable_whole, running_whole, priority_whole};
ghost use Rattle.rules.specs.Second.{start_second, sound_second, count_second, callable_second, running_second, priority_second};
ghost use Rattle.rules.specs.State.{empty};
ghost use Rattle.rules.specs.Step.{room_after};
ghost use Rattle.rules.specs.Whole.{pack, sound_whole, answer_of};
ghost use Rattle.codec.specs.Layout.{state_size, state_in, stored};
ghost use Rattle.codec.specs.Rows.{second_size, second_in, stored_second};
ghost use Rattle.debounce.specs.Card.{tick_of};
ghost use Rattle.debounce.specs.Settings.{fresh_of};
ghost use Rattle.card.specs.Answers.{card_step, state_after, second_step, second_after, answer_bytes, if_room, one_after};
ghost use Rattle.card.specs.Contacts.{card_size, card_in, card_after};

// Makes a supervisor with no tasks.
#[unsafe(no_mangle)]
pub extern "C" fn card_empty(state: &mut [u8], clock: u32) -> u8
    ensures value { result ≡ if_room state_size state.old 1 0 }
    ensures state_after { state.new ≡ stored (pack (empty clock)) state.old }
{
    card::card_empty(state, clock)
}

// Whether the state is sound.
#[unsafe(no_mangle)]
pub extern "C" fn card_sound(state: &[u8]) -> u8
    ensures { result ≡ bit (sound_whole (state_in state.now)) }
{
    card::card_sound(state)
}

// One step: the call of a record. Its refusal is the answer's first number too; bytes behind the record are not looked at.
#[unsafe(no_mangle)]
pub extern "C" fn card_step(
    state: &mut [u8],
    record: &[u8],
    room: &mut [u8],
    answer: &mut [u8],
) -> u8
    ensures value { result ≡ if_room 7 answer.old 1 (card_step state.old «record».now (length room.old)).refusal }
    ensures state_after { state.new ≡ if_room 7 answer.old state.old (state_after state.old (card_step state.old «record».now (length room.old))) }
    ensures room_after { room.new ≡ if_room 7 answer.old room.old (room_after room.old (card_step state.old «record».now (length room.old)).ended) }
    ensures answer_after { answer.new ≡ if_room 7 answer.old answer.old (answer_bytes (answer_of (card_step state.old «record».now (length room.old))) ++ drop 7 answer.old) }
{
    card::card_step(state, record, room, answer)
}

// COUNT of a task and an entry.
#[unsafe(no_mangle)]
pub extern "C" fn card_count(state: &[u8], task: u8, entry: u8, answer: &mut [u8]) -> u8
    ensures value { result ≡ if_room 1 answer.old 1 (refusal_in (count_whole (state_in state.now) task entry)) }
    ensures answer_after { answer.new ≡ one_after answer.old (number_in (count_whole (state_in state.now) task entry)) }
{
    card::card_count(state, task, entry, answer)
}

// CALLABLE of a task: 1 for yes.
#[unsafe(no_mangle)]
pub extern "C" fn card_callable(state: &[u8], task: u8, answer: &mut [u8]) -> u8
    ensures value { result ≡ if_room 1 answer.old 1 (refusal_in (callable_whole (state_in state.now) task)) }
    ensures answer_after { answer.new ≡ one_after answer.old (bit (yes_in (callable_whole (state_in state.now) task))) }
{
    card::card_callable(state, task, answer)
}

// The dispatched task, 0 if there is none.
#[unsafe(no_mangle)]
pub extern "C" fn card_running(state: &[u8], answer: &mut [u8]) -> u8
    ensures value { result ≡ if_room 1 answer.old 1 (refusal_in (running_whole (state_in state.now))) }
    ensures answer_after { answer.new ≡ one_after answer.old (number_in (running_whole (state_in state.now))) }
{
    card::card_running(state, answer)
}

// The priority of a task, worked out afresh; 0 for a number not created.
#[unsafe(no_mangle)]
pub extern "C" fn card_priority(state: &[u8], task: u8, answer: &mut [u8]) -> u8
    ensures value { result ≡ if_room 1 answer.old 1 (refusal_in (priority_whole (state_in state.now) task)) }
    ensures answer_after { answer.new ≡ one_after answer.old (number_in (priority_whole (state_in state.now) task)) }
{
    card::card_priority(state, task, answer)
}

// Makes a supervisor with no tasks.
#[unsafe(no_mangle)]
pub extern "C" fn second_empty(state: &mut [u8], clock: u32) -> u8
    ensures value { result ≡ if_room second_size state.old 1 0 }
    ensures state_after { state.new ≡ stored_second (start_second clock) state.old }
{
    card::by_rows::second_empty(state, clock)
}

// Whether the state is sound.
#[unsafe(no_mangle)]
pub extern "C" fn second_sound(state: &[u8]) -> u8
    ensures { result ≡ bit (sound_second (second_in state.now)) }
{
    card::by_rows::second_sound(state)
}

// One step: the call of a record. Its refusal is the answer's first number too; bytes behind the record are not looked at.
#[unsafe(no_mangle)]
pub extern "C" fn second_step(
    state: &mut [u8],
    record: &[u8],
    room: &mut [u8],
    answer: &mut [u8],
) -> u8
    ensures value { result ≡ if_room 7 answer.old 1 (second_step state.old «record».now (length room.old)).refusal }
    ensures state_after { state.new ≡ if_room 7 answer.old state.old (second_after state.old (second_step state.old «record».now (length room.old))) }
    ensures room_after { room.new ≡ if_room 7 answer.old room.old (room_after room.old (second_step state.old «record».now (length room.old)).ended) }
    ensures answer_after { answer.new ≡ if_room 7 answer.old answer.old (answer_bytes (answer_of (second_step state.old «record».now (length room.old))) ++ drop 7 answer.old) }
{
    card::by_rows::second_step(state, record, room, answer)
}

// COUNT of a task and an entry.
#[unsafe(no_mangle)]
pub extern "C" fn second_count(state: &[u8], task: u8, entry: u8, answer: &mut [u8]) -> u8
    ensures value { result ≡ if_room 1 answer.old 1 (refusal_in (count_second (second_in state.now) task entry)) }
    ensures answer_after { answer.new ≡ one_after answer.old (number_in (count_second (second_in state.now) task entry)) }
{
    card::by_rows::second_count(state, task, entry, answer)
}

// CALLABLE of a task: 1 for yes.
#[unsafe(no_mangle)]
pub extern "C" fn second_callable(state: &[u8], task: u8, answer: &mut [u8]) -> u8
    ensures value { result ≡ if_room 1 answer.old 1 (refusal_in (callable_second (second_in state.now) task)) }
    ensures answer_after { answer.new ≡ one_after answer.old (bit (yes_in (callable_second (second_in state.now) task))) }
{
    card::by_rows::second_callable(state, task, answer)
}

// The dispatched task, 0 if there is none.
#[unsafe(no_mangle)]
pub extern "C" fn second_running(state: &[u8], answer: &mut [u8]) -> u8
    ensures value { result ≡ if_room 1 answer.old 1 (refusal_in (running_second (second_in state.now))) }
    ensures answer_after { answer.new ≡ one_after answer.old (number_in (running_second (second_in state.now))) }
{
    card::by_rows::second_running(state, answer)
}

// The priority of a task, worked out afresh; 0 for a number not created.
#[unsafe(no_mangle)]
pub extern "C" fn second_priority(state: &[u8], task: u8, answer: &mut [u8]) -> u8
    ensures value { result ≡ if_room 1 answer.old 1 (refusal_in (priority_second (second_in state.now) task)) }
    ensures answer_after { answer.new ≡ one_after answer.old (number_in (priority_second (second_in state.now) task)) }
{
    card::by_rows::second_priority(state, task, answer)
}

// Makes a card of 48 bytes of settings.
#[unsafe(no_mangle)]
pub extern "C" fn debounce_fresh(card: &mut [u8], settings: &[u8]) -> u8
    ensures value { result ≡ if_room card_size card.old 1 (fresh_of settings.now).refusal }
    ensures card_after { card.new ≡ card_after card.old (fresh_of settings.now).refusal (fresh_of settings.now).card }
{
    card::contacts::debounce_fresh(card, settings)
}

// One tick with the raw bits: the report is one byte, bit k - 1 for contact k, 1 for closed.
#[unsafe(no_mangle)]
pub extern "C" fn debounce_tick(card: &mut [u8], bits: u8, report: &mut [u8]) -> u8
    ensures value { result ≡ if_room 1 report.old 1 (tick_of (card_in card.old) bits).refusal }
    ensures card_after { card.new ≡ if_room 1 report.old card.old (card_after card.old (tick_of (card_in card.old) bits).refusal (tick_of (card_in card.old) bits).card) }
    ensures report_after { report.new ≡ one_after report.old (tick_of (card_in card.old) bits).reported }
{
    card::contacts::debounce_tick(card, bits, report)
}
