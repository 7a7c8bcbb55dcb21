//! What holds of the meaning. The functions do nothing: their contracts are the laws.

ghost use Rattle.bq_eval_spec.specs.Primitives.{Primitives};
ghost use Rattle.bq_eval_spec.specs.Environment.{Scoping};
ghost use Rattle.bq_eval_spec.specs.Slots.{by_slots};
ghost use Rattle.bq_eval_spec.specs.Names.{by_names};
ghost use Rattle.bq_eval_laws.specs.Depth.{MembersAreSuffixes, ExpressionDepth, StatementDepth, BindingDepth, PlaceDepth};
ghost use Rattle.bq_eval_laws.specs.Frames.{ExpressionsBindNothing, FunctionsBeginWithParameters};
ghost use Rattle.bq_eval_laws.specs.Order.{DisplaysInOrder, DisplaysStop, PairsInOrder, DictDisplaysInOrder, MadePairsInOrder, ChainsInOrder, OperatorsInOrder, OperandsInOrder, ComparesInOrder, IndexedInOrder, SlicedInOrder, ConditionsFirst, RightSidesFirst, PlacesInOrder, IterablesFirst};
ghost use Rattle.bq_eval_laws.specs.Arguments.{ArgumentsInOrder, ArgumentsStop, OperandsOfSuffixesFirst, MembersInOrder, SuffixesInOrder};
ghost use Rattle.bq_eval_laws.specs.Decides.{LeftSidesDecide, BranchConditionsFirst, FiltersFirst, VariablesFirst, ClausesFirst};
ghost use Rattle.bq_eval_laws.specs.Turns.{ElementsInOrder, ClausesNest};
ghost use Rattle.bq_eval_laws.specs.Targets.{AssignmentsInOrder, VariablesInOrder};
ghost use Rattle.bq_eval_laws.specs.Updates.{NamesAugmentedInOrder, PlacesAugmentedInOrder};
ghost use Rattle.bq_eval_laws.specs.Steps.{ExpressionsStepFirst, SmallStatementsStepFirst, StatementsStepFirst, TurnsStepFirst, DefsStepFirst, NamesAreRead, LiteralsAreValues};
ghost use Rattle.bq_eval_laws.specs.LoadedGlobals.{LoadedGlobalsBegin};
ghost use Rattle.bq_eval_laws.specs.Flows.{SmallStatementsDo, LinesRunInOrder, BlocksRunInOrder, FilesRunInOrder, TurnsRunTheBody, LoopsTurn, LoopsEndNoOther, IfsRunABranch, ForsRunALoop, FunctionsGiveWhatTheyReturn, DefaultsFirst, FileLinesRunThere};

/// Where a depth suffices for an expression, a statement or a target, a greater one changes nothing, whatever names mean. Of an
/// expression that is so where the call of a namespace's member, if a name stands for a namespace, is the first suffix: by slots it is, and by names.
pub fn depth_changes_nothing<S, R, V>()
    ensures expression { (m : Primitives S) (scoping : Scoping R V) → ExpressionDepth m scoping }
    ensures statement { (m : Primitives S) (scoping : Scoping R V) → StatementDepth m scoping }
    ensures binding { (m : Primitives S) (scoping : Scoping R V) → BindingDepth m scoping }
    ensures places { (m : Primitives S) (scoping : Scoping R V) → PlaceDepth m scoping }
    ensures slots { MembersAreSuffixes by_slots }
    ensures names { MembersAreSuffixes by_names }
{}

/// A call leaves the caller's environment as it was: an expression, whatever it calls, binds no name.
pub fn expressions_bind_nothing<S, R, V>()
    ensures { (m : Primitives S) (scoping : Scoping R V) → ExpressionsBindNothing m scoping }
{}

/// A function begins with a frame that holds its parameters alone.
pub fn functions_begin_with_parameters<S>()
    ensures { (m : Primitives S) → FunctionsBeginWithParameters m }
{}

/// The expressions in an expression are evaluated from left to right, each in the state that those before it leave, and what stops
/// first ends it: elements of displays, keys and values, operands, indices and bounds.
pub fn evaluation_is_from_left_to_right<S, R, V>()
    ensures displays { (m : Primitives S) (scoping : Scoping R V) → DisplaysInOrder m scoping }
    ensures stops { (m : Primitives S) (scoping : Scoping R V) → DisplaysStop m scoping }
    ensures pairs { (m : Primitives S) (scoping : Scoping R V) → PairsInOrder m scoping }
    ensures dicts { (m : Primitives S) (scoping : Scoping R V) → DictDisplaysInOrder m scoping }
    ensures made { (m : Primitives S) (scoping : Scoping R V) → MadePairsInOrder m scoping }
    ensures chains { (m : Primitives S) (scoping : Scoping R V) → ChainsInOrder m scoping }
    ensures operators { (m : Primitives S) (scoping : Scoping R V) → OperatorsInOrder m scoping }
    ensures operands { (m : Primitives S) (scoping : Scoping R V) → OperandsInOrder m scoping }
    ensures comparisons { (m : Primitives S) (scoping : Scoping R V) → ComparesInOrder m scoping }
    ensures index { (m : Primitives S) (scoping : Scoping R V) → IndexedInOrder m scoping }
    ensures slice { (m : Primitives S) (scoping : Scoping R V) → SlicedInOrder m scoping }
    ensures places { (m : Primitives S) (scoping : Scoping R V) → PlacesInOrder m scoping }
{}

/// What is called is evaluated first, and then the arguments of a call from left to right, in the order in which they are written:
/// positional and named ones, `*` and `**`. The argument that stops first ends the call, and nothing is called.
pub fn arguments_are_evaluated_from_left_to_right<S, R, V>()
    ensures arguments { (m : Primitives S) (scoping : Scoping R V) → ArgumentsInOrder m scoping }
    ensures stops { (m : Primitives S) (scoping : Scoping R V) → ArgumentsStop m scoping }
    ensures operands { (m : Primitives S) (scoping : Scoping R V) → OperandsOfSuffixesFirst m scoping }
    ensures members { (m : Primitives S) (scoping : Scoping R V) → MembersInOrder m scoping }
    ensures suffixes { (m : Primitives S) (scoping : Scoping R V) → SuffixesInOrder m scoping }
{}

/// `and` and `or` evaluate their right side only if the left one doesn't decide. A conditional and a branch evaluate
/// their condition first, an assignment its right side, a comprehension its clauses: what its first clause goes over,
/// and for each of its elements the variables and then what is inside that clause.
pub fn what_decides_is_evaluated_first<S, R, V>()
    ensures sides { (m : Primitives S) (scoping : Scoping R V) → LeftSidesDecide m scoping }
    ensures conditions { (m : Primitives S) (scoping : Scoping R V) → ConditionsFirst m scoping }
    ensures branches { (m : Primitives S) (scoping : Scoping R V) → BranchConditionsFirst m scoping }
    ensures assignments { (m : Primitives S) (scoping : Scoping R V) → RightSidesFirst m scoping }
    ensures comprehensions { (m : Primitives S) (scoping : Scoping R V) → IterablesFirst m scoping }
    ensures clauses { (m : Primitives S) (scoping : Scoping R V) → ClausesFirst m scoping }
    ensures variables { (m : Primitives S) (scoping : Scoping R V) → VariablesFirst m scoping }
    ensures filters { (m : Primitives S) (scoping : Scoping R V) → FiltersFirst m scoping }
{}

/// A `for` clause of a comprehension has a turn for each element of what it goes over, from the first on, and each turn begins with
/// what the one before it leaves. A clause has all clauses after it inside, and the last one the element.
pub fn comprehensions_take_elements_in_order<S, R, V>()
    ensures elements { (m : Primitives S) (scoping : Scoping R V) → ElementsInOrder m scoping }
    ensures clauses { (m : Primitives S) (scoping : Scoping R V) → ClausesNest m scoping }
{}

/// An assignment evaluates the operands of all targets `x[i]` in its target, in the order in which they are written, and then the
/// parts of its target take their values from the left, as do the variables of a `for`. A tuple or list takes an iterable of as
/// many elements as it has parts, which take one each.
pub fn parts_of_targets_take_values_in_order<S, R, V>()
    ensures assignments { (m : Primitives S) (scoping : Scoping R V) → AssignmentsInOrder m scoping }
    ensures variables { (m : Primitives S) (scoping : Scoping R V) → VariablesInOrder m scoping }
{}

/// An augmented assignment reads what its target holds, and then evaluates its right side; the operands of a target `x[i]` are
/// evaluated once, before all of it.
pub fn targets_are_read_before_they_are_augmented<S, R, V>()
    ensures names { (m : Primitives S) (scoping : Scoping R V) → NamesAugmentedInOrder m scoping }
    ensures places { (m : Primitives S) (scoping : Scoping R V) → PlacesAugmentedInOrder m scoping }
{}

/// Each expression and statement takes its steps before anything in it is evaluated, and so does each turn of a loop: where they
/// are refused, nothing in it is. The numbers are those of `expr_steps`, `small_steps` and `stmt_steps`.
pub fn steps_come_first<S, R, V>()
    ensures expressions { (m : Primitives S) (scoping : Scoping R V) → ExpressionsStepFirst m scoping }
    ensures small { (m : Primitives S) (scoping : Scoping R V) → SmallStatementsStepFirst m scoping }
    ensures statements { (m : Primitives S) (scoping : Scoping R V) → StatementsStepFirst m scoping }
    ensures turns { (m : Primitives S) (scoping : Scoping R V) → TurnsStepFirst m scoping }
    ensures defs { (m : Primitives S) (scoping : Scoping R V) → DefsStepFirst m scoping }
{}

/// A name and a literal take one step, and then they have their value: nothing else is done. A name that is not bound yet is
/// F49. One that is known nowhere isn't evaluated, since resolving refuses its file (F20): it has no meaning here.
pub fn names_and_literals_take_one_step<S, R, V>()
    ensures names { (m : Primitives S) (scoping : Scoping R V) → NamesAreRead m scoping }
    ensures literals { (m : Primitives S) (scoping : Scoping R V) → LiteralsAreValues m scoping }
{}

/// The statements of a line, a block and a file run one after another. `break`, `continue` and `return` end the line and the
/// block there: what is after them is not evaluated.
pub fn statements_run_until_one_ends_the_block<S, R, V>()
    ensures small { (m : Primitives S) (scoping : Scoping R V) → SmallStatementsDo m scoping }
    ensures lines { (m : Primitives S) (scoping : Scoping R V) → LinesRunInOrder m scoping }
    ensures blocks { (m : Primitives S) (scoping : Scoping R V) → BlocksRunInOrder m scoping }
    ensures files { (m : Primitives S) (scoping : Scoping R V) → FilesRunInOrder m scoping }
    ensures at_lines { (m : Primitives S) (scoping : Scoping R V) → FileLinesRunThere m scoping }
    ensures ifs { (m : Primitives S) (scoping : Scoping R V) → IfsRunABranch m scoping }
{}

/// A loop evaluates what it goes over once, and has a turn for each element. `continue` ends the turn, `break` the loop, and
/// `return` the function; none of these ends a turn of a loop around it.
pub fn break_and_continue_are_of_the_innermost_loop<S, R, V>()
    ensures fors { (m : Primitives S) (scoping : Scoping R V) → ForsRunALoop m scoping }
    ensures loops { (m : Primitives S) (scoping : Scoping R V) → LoopsTurn m scoping }
    ensures bodies { (m : Primitives S) (scoping : Scoping R V) → TurnsRunTheBody m scoping }
    ensures innermost { (m : Primitives S) (scoping : Scoping R V) → LoopsEndNoOther m scoping }
{}

/// A function gives what its body returns, or `None` where the body ends without `return`. The defaults of its parameters are
/// evaluated from left to right at the `def`, before the function has its name.
pub fn functions_give_what_they_return<S, R, V>()
    ensures results { (m : Primitives S) (scoping : Scoping R V) → FunctionsGiveWhatTheyReturn m scoping }
    ensures defaults { (m : Primitives S) (scoping : Scoping R V) → DefaultsFirst m scoping }
{}

/// A name that a file loads and binds too is one of its globals, and begins with the loaded value; its other globals begin without
/// a value.
pub fn names_that_are_loaded_and_bound_begin_loaded<S>()
    ensures { (m : Primitives S) → LoadedGlobalsBegin m }
{}
