//! Compiles commands, with numbers for names.

ghost use Rattle.std.specs.Prelude.{◌≡◌, List, map, OnOk, IfOk};
ghost use Rattle.sbl_ast.specs.View.{view_argument, view_command, view_row, view_among, view_expression, view_literal};
ghost use Rattle.sbl_ast.specs.inside.ViewParts.{view_rows, view_others, view_groups};
ghost use Rattle.sbl_ast.specs.Tree as trees;
ghost use Rattle.sbl_compiler.specs.NumberedItems as spec;
ghost use Rattle.sbl_compiler.specs.NumberedItems.{numbered_command, numbered_groups, numbered_rows};
ghost use Rattle.sbl_compiler.specs.NumberedView.{expression_in, integer_in, joined_in, names_in, node_in, numbered_before, numbered_row, place_in};
ghost use Rattle.sbl_compiler.specs.NumberedNumbers.{expression as spec_expression, text as spec_text};
ghost use Rattle.sbl_program.specs.Program as programs;
ghost use Rattle.sbl_program.specs.Chains.{join_all};
ghost use Rattle.sbl_program.specs.ProgramOf.{view_action, view_number, view_text};

use crate::compiler::{CompileResult, Compiler, collect, whole};
use crate::place::{Standing, begin_region, end_waiting, inside, past_rows};
use sbl_ast::{
    Among, Argument, Assignment, Command, Comparison, Count, Expression, Group, Joiner, Literal,
    Move, Naming, NextCommand, Prefix, RowOfCommands, Simple, Splice,
};
use sbl_program::{Action, Arithmetic, Change, JoinedNode, Node, Relation, StringTerm};
use std::alloc::{AllocError, Global};

fn move_action(movement: Move, number: Arithmetic) -> Action
    ensures { view_action result ≡ spec.move movement (view_number number) }
{
    match movement {
        Move::Hop => Action::Hop(number),
        Move::AtMark => Action::AtMark(number),
        Move::ToMark => Action::ToMark(number),
    }
}

fn edit_action(edit: Splice, string: StringTerm) -> Action
    ensures { view_action result ≡ spec.edit edit (view_text string) }
{
    match edit {
        Splice::Replace => Action::Replace(string),
        Splice::InsertSign | Splice::Insert => Action::Insert(string),
        Splice::Attach => Action::Attach(string),
    }
}

fn literal(alloc: Global, literal: &Literal) -> Result<Action, AllocError>
    ensures { IfOk result (λ a. view_action a ≡ programs.match (programs.literal (view_literal literal.now).value)) }
{
    Ok(Action::Match(StringTerm::Literal(literal.value.clone()?)))
}

// Returns the relation that a comparison tests.
fn relation_of(comparison: Comparison) -> Relation
    ensures { result ≡ spec.relation_of comparison }
{
    match comparison {
        Comparison::Same => Relation::Equal,
        Comparison::Differs => Relation::Unequal,
        Comparison::Less => Relation::Less,
        Comparison::AtMost => Relation::LessOrEqual,
        Comparison::Greater => Relation::Greater,
        Comparison::AtLeast => Relation::GreaterOrEqual,
    }
}

impl Compiler<'_> {
    fn simple(&self, word: Simple, place: &mut Standing) -> CompileResult<Node>
        ensures made { IfOk result (λ n. node_in self.now n ≡ spec.simple word (place_in self.now place.old)) }
        ensures following { OnOk result (place_in self.now place.new ≡ spec.past_simple word (place_in self.now place.old)) }
    {
        match word {
            Simple::LeftBracket => Ok(Node::Act(Action::LeftBracket)),
            Simple::RightBracket => Ok(Node::Act(Action::RightBracket)),
            Simple::Substring => {
                let node = self.search_ahead(*place)?;
                place.waits = true;
                Ok(node)
            }
            Simple::Next => Ok(Node::Act(Action::Next)),
            Simple::ToLimit => Ok(Node::Act(Action::ToLimit)),
            Simple::AtLimit => Ok(Node::Act(Action::AtLimit)),
            Simple::Delete => Ok(Node::Act(Action::Delete)),
            Simple::True => Ok(Node::Act(Action::True)),
            Simple::False => Ok(Node::Act(Action::False)),
        }
    }

    // Compiles a name that is a command.
    fn name_alone(&self, name: &str) -> Node
        ensures { node_in self.now result ≡ spec.name_alone (names_in self.now) name.now }
    {
        if self.names.strings.is_one_of(name) {
            Node::Act(Action::Match(StringTerm::Variable(self.names.strings.number_of(name))))
        } else if self.names.booleans.is_one_of(name) {
            Node::Act(Action::Boolean(self.names.booleans.number_of(name)))
        } else if self.names.groupings.is_one_of(name) {
            Node::Act(Action::Grouping(self.names.groupings.number_of(name)))
        } else {
            Node::Call(self.names.routines.number_of(name))
        }
    }

    fn after_prefix(&self, prefix: Prefix, inner: Node) -> CompileResult<Node>
        ensures { IfOk result (λ n. node_in self.now n ≡ spec.after_prefix prefix (node_in self.now inner)) }
    {
        let inner = Box::new(self.alloc, inner)?;
        Ok(match prefix {
            Prefix::Not => Node::Not(inner),
            Prefix::Test => Node::Test(inner),
            Prefix::Try => Node::Try(inner),
            Prefix::Do => Node::Do(inner),
            Prefix::Fail => Node::Fail(inner),
            Prefix::Repeat => Node::Repeat(inner),
            Prefix::GoTo => Node::Goto(inner),
            Prefix::GoPast => Node::GoPast(inner),
            Prefix::Backwards => Node::Backwards(inner),
        })
    }

    fn after_count(&self, count: Count, number: Arithmetic, inner: Node) -> CompileResult<Node>
        ensures { IfOk result (λ n. node_in self.now n ≡ spec.after_count count (view_number number) (node_in self.now inner)) }
    {
        let inner = Box::new(self.alloc, inner)?;
        Ok(match count {
            Count::Loop => Node::Loop(number, inner),
            Count::AtLeast => Node::AtLeast(number, inner),
        })
    }

    fn change_named(&self, naming: Naming, name: &str) -> Action
        ensures { view_action result ≡ spec.change_named (names_in self.now) naming name.now }
    {
        match naming {
            Naming::SetMark => Action::SetMark(self.names.integers.number_of(name)),
            Naming::Set => Action::Set(self.names.booleans.number_of(name)),
            Naming::Unset => Action::Unset(self.names.booleans.number_of(name)),
            Naming::Arrow => Action::Keep(self.names.strings.number_of(name)),
        }
    }

    // Returns a command of a row that comes after the first.
    fn joined_command(&self, joiner: Joiner, command: Node) -> JoinedNode
        ensures { joined_in self.now result ≡ (joiner, node_in self.now command) }
    {
        JoinedNode { joiner, command }
    }

    // Makes a row of the first command and those after it. Returns `AllocError` if an allocation fails.
    fn whole_row(&self, first: Node, others: Vec<JoinedNode>) -> CompileResult<Node>
        ensures { IfOk result (λ n. node_in self.now n ≡ join_all (map (joined_in self.now) others.items) (node_in self.now first)) }
    {
        whole!(self.alloc; Node::Row, first, others)
    }

    fn set_limit(&self, first: Node, second: Node) -> CompileResult<Node>
        ensures { IfOk result (λ n. node_in self.now n ≡ programs.setlimit (node_in self.now first) (node_in self.now second)) }
    {
        match Box::new(self.alloc, first) {
            Ok(first) => match Box::new(self.alloc, second) {
                Ok(second) => Ok(Node::SetLimit(first, second)),
                Err(refused) => {
                    drop(first);
                    Err(refused.into())
                }
            },
            Err(refused) => {
                drop(second);
                Err(refused.into())
            }
        }
    }

    fn move_to(&self, movement: Move, number: &Expression) -> CompileResult<Action>
        ensures { IfOk result (λ a. view_action a ≡ spec.move movement (spec_expression (names_in self.now) (view_expression number.now))) }
    {
        Ok(move_action(movement, self.number_of_expression(number)?))
    }

    fn edit_text(&self, edit: Splice, string: &Argument) -> CompileResult<Action>
        ensures { IfOk result (λ a. view_action a ≡ spec.edit edit (spec_text (names_in self.now) (view_argument string.now))) }
    {
        Ok(edit_action(edit, self.text(string)?))
    }

    fn assign(
        &self,
        name: &str,
        assignment: Assignment,
        number: &Expression,
    ) -> CompileResult<Action>
        ensures { IfOk result (λ a. view_action a ≡ programs.assign (integer_in self.now name.now) (spec.change_of assignment) (expression_in self.now number.now)) }
    {
        let change = match assignment {
            Assignment::Equals => Change::Becomes,
            Assignment::Plus => Change::Plus,
            Assignment::Minus => Change::Minus,
            Assignment::Times => Change::Times,
            Assignment::Over => Change::Over,
        };
        let variable = self.names.integers.number_of(name);
        Ok(Action::Assign(variable, change, self.number_of_expression(number)?))
    }

    fn compare(
        &self,
        name: &str,
        comparison: Comparison,
        number: &Expression,
    ) -> CompileResult<Action>
        ensures { IfOk result (λ a. view_action a ≡ programs.compare (programs.integer (integer_in self.now name.now)) (spec.relation_of comparison) (expression_in self.now number.now)) }
    {
        Ok(Action::Compare(
            Arithmetic::Integer(self.names.integers.number_of(name)),
            relation_of(comparison),
            self.number_of_expression(number)?,
        ))
    }

    fn compare_values(
        &self,
        first: &Expression,
        comparison: Comparison,
        second: &Expression,
    ) -> CompileResult<Action>
        ensures { IfOk result (λ a. view_action a ≡ programs.compare (expression_in self.now first.now) (spec.relation_of comparison) (expression_in self.now second.now)) }
    {
        Ok(Action::Compare(
            self.number_of_expression(first)?,
            relation_of(comparison),
            self.number_of_expression(second)?,
        ))
    }

    /// Compiles a command, and moves `place` to the position after it. Returns `AllocError` if an allocation fails.
    #[cycle(commands)]
    fn node_of(&self, command: &Command, place: &mut Standing) -> CompileResult<Node>
        ensures made { IfOk result (λ n. node_in self.now n ≡ numbered_command (names_in self.now) (view_command command.now) (place_in self.now place.old)) }
        ensures following { OnOk result (place_in self.now place.new ≡ spec.past (view_command command.now) (place_in self.now place.old)) }
    {
        match command {
            Command::Bracket(rows) => Ok(Node::Sequence(self.rows_of(rows, place)?)),
            Command::Simple(word) => self.simple(*word, place),
            Command::Literal(value) => Ok(Node::Act(literal(self.alloc, value)?)),
            Command::Name(name) => Ok(self.name_alone(name.as_str())),
            Command::Non {
                with_minus: _,
                name,
            } => Ok(Node::Act(Action::NonGrouping(self.names.groupings.number_of(name.as_str())))),
            Command::Prefixed(prefix, inner) => {
                let inner = self.node_of(inner, place)?;
                self.after_prefix(*prefix, inner)
            }
            Command::Counted(count, number, inner) => {
                let number = self.number_of_expression(number)?;
                match self.node_of(inner, place) {
                    Ok(inner) => self.after_count(*count, number, inner),
                    Err(refused) => {
                        drop(number);
                        Err(refused)
                    }
                }
            }
            Command::Move(movement, number) => Ok(Node::Act(self.move_to(*movement, number)?)),
            Command::Named(naming, name) => Ok(Node::Act(self.change_named(
                *naming,
                name.as_str(),
            ))),
            Command::Splice(edit, string) => Ok(Node::Act(self.edit_text(*edit, string)?)),
            Command::SetLimit(limit, inner) => {
                let limit = self.node_of(limit, place)?;
                match self.node_of(inner, place) {
                    Ok(inner) => self.set_limit(limit, inner),
                    Err(refused) => {
                        drop(limit);
                        Err(refused)
                    }
                }
            }
            Command::Assign(name, assignment, number) => {
                Ok(Node::Act(self.assign(name.as_str(), *assignment, number)?))
            }
            Command::Compare(name, comparison, number) => {
                Ok(Node::Act(self.compare(name.as_str(), *comparison, number)?))
            }
            Command::CompareValues(first, comparison, second) => {
                Ok(Node::Act(self.compare_values(first, *comparison, second)?))
            }
            Command::Among(among) => self.among_of(among, place),
        }
    }

    #[cycle(commands)]
    fn rows_of(&self, rows: &Vec<RowOfCommands>, place: &mut Standing) -> CompileResult<Vec<Node>>
        ensures made { IfOk result (λ v. map (node_in self.now) v.items ≡ numbered_rows (names_in self.now) (view_rows rows.now.items) (place_in self.now place.old)) }
        ensures following { OnOk result (place_in self.now place.new ≡ spec.past_rows (view_rows rows.now.items) (place_in self.now place.old)) }
    {
        collect!(self.alloc; nodes: row in rows => node: self.row_of(row, place) => node)
    }

    /// Compiles a row, and moves `place` to the position after it. Returns `AllocError` if an allocation fails.
    #[cycle(commands)]
    pub fn row_of(&self, row: &RowOfCommands, place: &mut Standing) -> CompileResult<Node>
        ensures made { IfOk result (λ n. node_in self.now n ≡ numbered_row (names_in self.now) (view_row row.now) (place_in self.now place.old)) }
        ensures following { OnOk result (place_in self.now place.new ≡ spec.past_others (view_row row.now).1 (spec.past (view_row row.now).0 (place_in self.now place.old))) }
    {
        let first = self.node_of(&row.first, place)?;
        match self.others_of(&row.others, place) {
            Ok(others) => self.whole_row(first, others),
            Err(refused) => {
                drop(first);
                Err(refused)
            }
        }
    }

    #[cycle(commands)]
    fn others_of(
        &self,
        others: &Vec<NextCommand>,
        place: &mut Standing,
    ) -> CompileResult<Vec<JoinedNode>>
        ensures made { IfOk result (λ v. map (joined_in self.now) v.items ≡ spec.joins_in (names_in self.now) (view_others others.now.items) (place_in self.now place.old)) }
        ensures following { OnOk result (place_in self.now place.new ≡ spec.past_others (view_others others.now.items) (place_in self.now place.old)) }
    {
        collect!(self.alloc; joins: other in others => command: self.node_of(&other.command, place) => {
            self.joined_command(other.joiner, command)
        })
    }

    #[cycle(commands)]
    fn among_of(&self, among: &Among, place: &mut Standing) -> CompileResult<Node>
        ensures made { IfOk result (λ n. node_in self.now n ≡ numbered_command (names_in self.now) (trees.among_ (view_among among.now).0 (view_among among.now).1) (place_in self.now place.old)) }
        ensures following { OnOk result (place_in self.now place.new ≡ spec.past (trees.among_ (view_among among.now).0 (view_among among.now).1) (place_in self.now place.old)) }
    {
        let number = self.next_number(*place);
        let before = self.before_of(among, place)?;
        match self.bodies_of(&among.groups, place) {
            Ok(bodies) => {
                place.waits = false;
                Ok(Node::Among {
                    among: number,
                    before,
                    bodies,
                })
            }
            Err(refused) => {
                drop(before);
                Err(refused)
            }
        }
    }

    // Compiles the starter of an among, and moves `place` past it. Returns what the among does before the command of the
    // chosen group. Returns `AllocError` if an allocation fails.
    #[cycle(commands)]
    fn before_of(&self, among: &Among, place: &mut Standing) -> CompileResult<Vec<Node>>
        ensures made { IfOk result (λ v. map (node_in self.now) v.items ≡ numbered_before (names_in self.now) (view_among among.now).0 (place_in self.now place.old)) }
        ensures following { OnOk result (place_in self.now place.new ≡ spec.past_starter (view_among among.now).0 (spec.inside (place_in self.now place.old))) }
    {
        let beginning = *place;
        let before = self.search_first(among, beginning)?;
        *place = inside(self.amongs, beginning);
        match &among.starter {
            None => Ok(before),
            Some(rows) => match self.region(rows, place) {
                Ok(nodes) => self.with_starter(beginning, before, nodes),
                Err(refused) => {
                    drop(before);
                    Err(refused)
                }
            },
        }
    }

    // Compiles the rows in parentheses that are a region of their own, and moves `place` to the position after them.
    // Returns `AllocError` if an allocation fails.
    #[cycle(commands)]
    fn region(&self, rows: &Vec<RowOfCommands>, place: &mut Standing) -> CompileResult<Vec<Node>>
        ensures made { IfOk result (λ v. map (node_in self.now) v.items ≡ numbered_rows (names_in self.now) (view_rows rows.now.items) (spec.region (view_rows rows.now.items) (place_in self.now place.old))) }
        ensures following { OnOk result (place_in self.now place.new ≡ spec.past_rows (view_rows rows.now.items) (spec.end_waiting (place_in self.now place.old))) }
    {
        let following = past_rows(self.amongs, rows, end_waiting(self.amongs, *place));
        let mut inner = begin_region(self.amongs, *place, following);
        *place = following;
        self.rows_of(rows, &mut inner)
    }

    #[cycle(commands)]
    fn bodies_of(&self, groups: &Vec<Group>, place: &mut Standing) -> CompileResult<Vec<Node>>
        ensures made { IfOk result (λ v. (es : List trees.Entry) → map (node_in self.now) v.items ≡ numbered_groups (names_in self.now) (view_groups groups.now.items es) (place_in self.now place.old)) }
        ensures following { OnOk result ((bare : List trees.Entry) → place_in self.now place.new ≡ spec.past_groups (view_groups groups.now.items bare) (place_in self.now place.old)) }
    {
        collect!(self.alloc; bodies: group in groups => nodes: self.region(&group.rows, place) => {
            Node::Sequence(nodes)
        })
    }
}
