//! What holds of the step and of whole runs. The functions here do nothing: each is the place where
//! the facts of its contract are proved.

ghost use Rattle.std.specs.Prelude.{◌≡◌, ◌≢◌, ℕ, ◌+◌, ◌-◌, ◌*◌, ◌≤◌, ◌<◌, ◌++◌, length, List, [], ◌∷◌, map, take, true, false, None};
ghost use Rattle.liq_types.specs.declared.amounts.TheConstants.{ACCOUNTS, LOWEST_MOST, GENERATIONS_MOST, CHECKPOINT_BYTES_MOST};
ghost use Rattle.liq_types.specs.declared.replies.Done.{Done};
ghost use Rattle.liq_types.specs.declared.replies.Refusal.{Refusal};
ghost use Rattle.liq_types.specs.declared.replies.Refusal.TheVariants.{AmountLimit};
ghost use Rattle.liq_types.specs.declared.replies.Reply.TheVariants.{Said, No};
ghost use Rattle.liq_types.specs.declared.hints.HintWords.{HintWords};
ghost use Rattle.liq_types.specs.declared.requests.Call.{Call};
ghost use Rattle.liq_types.specs.declared.requests.Call.TheVariants.{Open, Rotate};
ghost use Rattle.liq_types.specs.declared.requests.Command.{Command};
ghost use Rattle.liq_types.specs.declared.requests.Query.{Query};
ghost use Rattle.liq_types.specs.declared.requests.Request.{Request};
ghost use Rattle.liq_types.specs.declared.requests.Request.TheVariants.{Do, Ask};
ghost use Rattle.liq_types.specs.Codes.{value_count};
ghost use Rattle.liq_types.specs.declared.image.Image.{Image};
ghost use Rattle.liq_types.specs.Image.{opening_image_with};
ghost use Rattle.liq_types.specs.Soundness.{IsSoundImage};
ghost use Rattle.liq_types.specs.State.{State, opening_with, started, wallet_of, client_of};
ghost use Rattle.liq_types.specs.Payments.{credited, charged};
ghost use Rattle.liq_rule_step.specs.Dust.{IsCovered, dust};
ghost use Rattle.liq_rule_step.specs.History.{Entry, IsLegal, GoesOn, requests_of, state_after};
ghost use Rattle.liq_rule_step.specs.Identities.{IsAtHome, IsConserved, WalletsAscend, touches_no_trove, wallets_coll, wallets_lusd};
ghost use Rattle.liq_rule_step.specs.Events.{events};
ghost use Rattle.liq_rule_step.specs.Image.{image, IsSameState};
ghost use Rattle.liq_types.specs.Length.{checkpoint_length};
ghost use Rattle.liq_rule_step.specs.Rules.{values, call_events, call_changes};
ghost use Rattle.liq_rule_step.specs.Step.{Refused, Repeated, ruling, after, step, run, accepted, rules, effect, first_refusal};
ghost use Rattle.liq_rule_step.specs.Verbs.{kind, unhinted};
ghost use Rattle.liq_rule_step.specs.View.{view_of, view_after, all_followed, changes, changes_list};
ghost use Rattle.liq_types.specs.WellFormed.{AreFinished, IsWellFormed, TablesAscend, stakes_in};

/// A refused request, a query and a command that comes again leave the state.
pub fn only_new_commands_change()
    ensures refused { (s : State) → (request : Request) → (refusal : Refusal)
        → (step s request).1 ≡ No refusal → (step s request).0 ≡ s }
    ensures asked { (s : State) → (query : Query) → (step s (Ask query)).0 ≡ s }
    ensures repeated { (s : State) → (c : Command) → (kept : Done) → ruling s c ≡ Repeated kept
        → step s (Do c) ≡ (s, Said kept) }
{}

/// The accepted commands of a run, run again from where it began, lead to the same state, and all
/// are accepted.
pub fn accepted_commands_replay()
    ensures state { (s : State) → (requests : List Request)
        → (run s (map Do (accepted s requests))).0 ≡ (run s requests).0 }
    ensures again { (s : State) → (requests : List Request)
        → accepted s (map Do (accepted s requests)) ≡ accepted s requests }
{}

/// A run goes on where another ended.
pub fn runs_go_on()
    ensures state { (s : State) → (first more : List Request) → (run s (first ++ more)).0
        ≡ (run (run s first).0 more).0 }
    ensures replies { (s : State) → (first more : List Request) → (run s (first ++ more)).1
        ≡ (run s first).1 ++ (run (run s first).0 more).1 }
    ensures accepted { (s : State) → (first more : List Request) → accepted s (first ++ more)
        ≡ accepted s first ++ accepted (run s first).0 more }
{}

/// No hint changes the state or the reply.
pub fn hints_change_nothing()
    ensures { (s : State) → (c : Command) → step s (Do c) ≡ step s (Do (unhinted c)) }
{}

/// At the opening, whatever its limit, the image has nothing but the price, a product that is whole
/// and the first generation, all is conserved, and no dust is owed.
pub fn opening_has_nothing()
    ensures image { (limit : ℕ) → image (opening_with limit) ≡ opening_image_with limit }
    ensures conserved { (limit : ℕ) → IsConserved (opening_with limit) }
    ensures covered { (limit : ℕ) → IsCovered (dust (opening_with limit)) }
{}

/// The image law: two states that are the same (their images and their records are equal) rule
/// alike on every command, give the same reply to every request and do the same to the Stability
/// Pool and to the ordered list, and the states that they lead to are the same again, also over
/// whole runs. It is said of well-formed states, which all states are that are reached from one.
pub fn only_image_and_records_count()
    ensures ruling { (s t : State) → IsWellFormed s → IsWellFormed t → IsSameState s t
        → (c : Command) → ruling s c ≡ ruling t c }
    ensures reply { (s t : State) → IsWellFormed s → IsWellFormed t → IsSameState s t
        → (request : Request) → (step s request).1 ≡ (step t request).1 }
    ensures state { (s t : State) → IsWellFormed s → IsWellFormed t → IsSameState s t
        → (request : Request) → IsSameState (step s request).0 (step t request).0 }
    ensures run_replies { (s t : State) → IsWellFormed s → IsWellFormed t → IsSameState s t
        → (requests : List Request) → (run s requests).1 ≡ (run t requests).1 }
    ensures run_state { (s t : State) → IsWellFormed s → IsWellFormed t → IsSameState s t
        → (requests : List Request) → IsSameState (run s requests).0 (run t requests).0 }
    ensures accepted { (s t : State) → IsWellFormed s → IsWellFormed t → IsSameState s t
        → (requests : List Request) → accepted s requests ≡ accepted t requests }
    ensures events { (s t : State) → IsWellFormed s → IsWellFormed t → IsSameState s t
        → (call : Call) → call_events s call ≡ call_events t call }
    ensures all_events { (s t : State) → IsWellFormed s → IsWellFormed t → IsSameState s t
        → (commands : List Command) → events s commands ≡ events t commands }
    ensures changes { (s t : State) → IsWellFormed s → IsWellFormed t → IsSameState s t
        → (call : Call) → call_changes s call ≡ call_changes t call }
{}

/// A well-formed state may begin again from its image: the image's finished sums lie before its
/// place, and the state that begins with it, with as many records, is the same.
pub fn states_begin_again()
    ensures finished { (s : State) → IsWellFormed s → AreFinished (image s) }
    ensures same { (s : State) → IsWellFormed s
        → IsSameState (record (started (image s)) { records = s.records }) s }
{}

/// The opening state is well formed, whatever its limit, and so is each state that a call, a step
/// or a run leads to from one that is.
pub fn states_are_well_formed()
    ensures opening { (limit : ℕ) → IsWellFormed (opening_with limit) }
    ensures effect { (s : State) → IsWellFormed s → (call : Call) → IsWellFormed (effect s call) }
    ensures step { (s : State) → IsWellFormed s → (request : Request)
        → IsWellFormed (step s request).0 }
    ensures run { (s : State) → IsWellFormed s → (requests : List Request)
        → IsWellFormed (run s requests).0 }
{}

/// An image whose stakes are those of its troves is the image of the state that begins with it.
/// That state is well formed where the finished sums lie before the place of the current one.
pub fn images_begin_states()
    ensures same { (i : Image) → i.stakes ≡ stakes_in i → image (started i) ≡ i }
    ensures formed { (i : Image) → AreFinished i → IsWellFormed (started i) }
{}

/// A legal history stays legal when a further call of a session, counted on, gets the step's reply;
/// and the state after it is then the step's.
pub fn histories_grow()
    ensures empty { (s : State) → IsLegal s [] }
    ensures legal { (s : State) → (entries : List Entry) → (e : Entry) → IsLegal s entries
        → GoesOn s entries e → IsLegal s (entries ++ e ∷ []) }
    ensures state { (s : State) → (entries : List Entry) → (e : Entry)
        → state_after s (entries ++ e ∷ []) ≡ (step (state_after s entries) e.request).0 }
{}

/// A payment moves exactly its amounts into or out of its account's wallet, and every other wallet
/// stays. So what all wallets have grows by what is paid, and shrinks by what is charged.
pub fn payments_move_exactly()
    ensures paid { (s : State) → (account coll lusd : ℕ) → WalletsAscend s
        → wallet_of (credited s account coll lusd) account
        ≡ record {
          coll = (wallet_of s account).coll + coll;
          lusd = (wallet_of s account).lusd
              + lusd;
        } }
    ensures paid_others { (s : State) → (account coll lusd other : ℕ) → other ≢ account
        → wallet_of (credited s account coll lusd) other ≡ wallet_of s other }
    ensures charged { (s : State) → (account coll lusd : ℕ) → WalletsAscend s
        → wallet_of (charged s account coll lusd) account
        ≡ record {
          coll = (wallet_of s account).coll - coll;
          lusd = (wallet_of s account).lusd
              - lusd;
        } }
    ensures charged_others { (s : State) → (account coll lusd other : ℕ) → other ≢ account
        → wallet_of (charged s account coll lusd) other ≡ wallet_of s other }
    ensures paid_coll { (s : State) → (account coll lusd : ℕ) → WalletsAscend s
        → wallets_coll (credited s account coll lusd) ≡ wallets_coll s + coll }
    ensures paid_lusd { (s : State) → (account coll lusd : ℕ) → WalletsAscend s
        → wallets_lusd (credited s account coll lusd) ≡ wallets_lusd s + lusd }
    ensures charged_coll { (s : State) → (account coll lusd : ℕ) → WalletsAscend s
        → coll ≤ (wallet_of s account).coll → wallets_coll (charged s account coll lusd) + coll
        ≡ wallets_coll s }
    ensures charged_lusd { (s : State) → (account coll lusd : ℕ) → WalletsAscend s
        → lusd ≤ (wallet_of s account).lusd → wallets_lusd (charged s account coll lusd) + lusd
        ≡ wallets_lusd s }
{}

/// The tables of every state that is reached from the opening, whatever its limit, are in the order
/// of their keys, and a step keeps them so.
pub fn tables_stay_in_order()
    ensures step { (s : State) → TablesAscend s → (request : Request)
        → TablesAscend (step s request).0 }
    ensures run { (limit : ℕ) → (requests : List Request)
        → TablesAscend (run (opening_with limit) requests).0 }
{}

/// What is conserved holds of every sound image.
pub fn sound_images_conserve()
    ensures { (i : Image) → (records : ℕ) → IsSoundImage i records → IsAtHome i }
{}

/// What is conserved is kept by every allowed call that touches no trove: its collateral and LUSD
/// only change their home, or come in and go out.
pub fn calls_without_troves_conserve()
    ensures { (s : State) → (call : Call) → touches_no_trove call ≡ true → IsWellFormed s
        → TablesAscend s → first_refusal (rules s call) ≡ None → IsConserved s
        → IsConserved (effect s call) }
{}

/// What is conserved is kept when a trove opens.
pub fn opening_a_trove_conserves()
    ensures { (s : State) → (account coll borrow bound : ℕ) → (hint : HintWords) → TablesAscend s
        → first_refusal (rules s (Open account coll borrow bound hint)) ≡ None → IsConserved s
        → IsConserved (effect s (Open account coll borrow bound hint)) }
{}

/// A rotation is refused whose checkpoint would be too long, where there is a further generation.
pub fn long_checkpoints_refuse_rotation()
    ensures { (s : State) → (client number : ℕ) → client < ACCOUNTS
        → number ≡ (client_of s client).last + 1 → s.generation < GENERATIONS_MOST
        → (bytes : ℕ)
        → bytes ≡ checkpoint_length (image (after s (record {
          client = client;
          number = number;
          call = Rotate;
        }))) → CHECKPOINT_BYTES_MOST < bytes
        → ruling s (record { client = client; number = number; call = Rotate })
        ≡ Refused (AmountLimit bytes CHECKPOINT_BYTES_MOST) }
{}

/// A reply shows as many values as its kind of command has.
pub fn replies_have_their_values()
    ensures { (s : State) → (call : Call) → first_refusal (rules s call) ≡ None
        → length (values s call) ≡ value_count (kind call) }
{}

/// A command makes no more pool events than one liquidation of the lowest troves takes troves; so
/// does each of the commands that a run accepts.
pub fn commands_make_few_events()
    ensures one { (s : State) → (call : Call) → first_refusal (rules s call) ≡ None
        → length (call_events s call) ≤ LOWEST_MOST }
    ensures run { (s : State) → (requests : List Request) → length (events s (accepted s requests))
        ≤ LOWEST_MOST * length (accepted s requests) }
{}

/// Whoever has the view of a state (its ordered list and the words from which keys are made) and
/// follows the changes of an accepted command has the view of the state after it; so it is over
/// whole runs, and after each entry of a history.
pub fn views_follow_changes()
    ensures one { (s : State) → IsWellFormed s → TablesAscend s → (c : Command)
        → all_followed (view_of s) (call_changes s c.call) ≡ view_of (after s c) }
    ensures run { (s : State) → IsWellFormed s → TablesAscend s → (requests : List Request)
        → all_followed (view_of s) (changes s (accepted s requests)) ≡ view_of (run s requests).0 }
    ensures history { (s : State) → IsWellFormed s → TablesAscend s → (entries : List Entry)
        → (n : ℕ) → all_followed (view_of s) (changes s (accepted s (requests_of (take n entries))))
        ≡ view_after s entries n }
{}

/// An accepted command changes the ordered list exactly where its kind is one of those that do.
pub fn some_kinds_change_the_list()
    ensures others { (s : State) → (call : Call) → changes_list call ≡ false
        → call_changes s call ≡ [] }
    ensures these { (s : State) → (call : Call) → first_refusal (rules s call) ≡ None
        → changes_list call ≡ true → call_changes s call ≢ [] }
{}
