//! An application with the class and the role of each operator, each looked up once.

ghost use Rattle.std.specs.Prelude.{◌≡◌, is_none, option_map, IfOk};
ghost use Rattle.apx_dag.specs.Class.{class_of};
ghost use Rattle.apx_dag.specs.Role.{role_view, role_in};

use crate::class::Class;
use crate::role::{Role, role_of};
use apx_json::{AppText, OperatorText, StreamText};
use std::alloc::{AllocError, Global};
use std::marker::Model;

/// An operator with its class and its role; contracts see its text.
#[derive(Drop)]
pub(crate) struct KnownOperator {
    /// What the application says of it.
    text: OperatorText,
    /// None where no class has the name.
    class: Option<Class>,
    /// None where the class is unknown, or the properties aren't those of the class.
    role: Option<Role>,
}

impl Model for KnownOperator {
    ghost use Rattle.std.specs.Prelude.{◌≡◌, option_map};
    ghost use Rattle.apx_json.specs.Texts.{Operator};
    ghost use Rattle.apx_dag.specs.Class.{class_of};
    ghost use Rattle.apx_dag.specs.Role.{role_view, role_in};

    ghost Value = { Operator };

    ghost view = { λ k. k.text };

    ghost invariant = { λ k. (k.class ≡ class_of k.text.class) × (option_map role_view k.role ≡ role_in k.text) };
}

impl KnownOperator {
    /// The operator of a text.
    fn of(alloc: Global, text: OperatorText) -> Result<KnownOperator, AllocError>
        ensures { IfOk result (λ operator. operator ≡ text) }
    {
        let class = Class::of(text.class.text());
        let role = operator_role(alloc, class, &text)?;
        Ok(KnownOperator { text, class, role })
    }

    /// The operator as it is written.
    pub(crate) fn written(&self) -> &OperatorText
        ensures { result.now ≡ self.now }
    {
        &self.text
    }

    /// The class, where it is known.
    pub(crate) fn class(&self) -> Option<Class>
        ensures { result ≡ class_of self.now.class }
    {
        self.class
    }

    /// Whether the class is unknown, or the properties aren't those of the class.
    pub(crate) fn has_no_role(&self) -> bool
        ensures { result ≡ is_none (role_in self.now) }
    {
        self.role.is_none()
    }

    /// The same role, where there is one.
    pub(crate) fn role(&self) -> Result<Option<Role>, AllocError>
        ensures { IfOk result (λ role. option_map role_view role ≡ role_in self.now) }
    {
        match &self.role {
            Some(role) => Ok(Some(role.copy()?)),
            None => Ok(None),
        }
    }
}

/// The role of an operator, where its class is known.
fn operator_role(
    alloc: Global,
    class: Option<Class>,
    operator: &OperatorText,
) -> Result<Option<Role>, AllocError>
    requires { class ≡ class_of operator.now.class }
    ensures { IfOk result (λ role. option_map role_view role ≡ role_in operator.now) }
{
    match class {
        Some(class) => role_of(alloc, class, &operator.properties),
        None => Ok(None),
    }
}

/// An application: its operators, with what they are, and its streams, in the order of the file.
#[derive(Drop)]
pub(crate) struct KnownApp {
    /// Its operators.
    pub(crate) operators: Vec<KnownOperator>,
    /// Its streams.
    pub(crate) streams: Vec<StreamText>,
}

impl Model for KnownApp {
    ghost use Rattle.apx_json.specs.Texts.{Application};

    ghost Value = { Application };

    ghost view = { λ a. record { operators = a.operators.items; streams = a.streams.items } };
}

impl KnownApp {
    /// The application of a text.
    pub(crate) fn of(alloc: Global, app: AppText) -> Result<KnownApp, AllocError>
        ensures { IfOk result (λ known. known ≡ app) }
    {
        let AppText { operators, streams } = app;
        let operators = known(alloc, operators)?;
        Ok(KnownApp { operators, streams })
    }
}

/// The operators of some texts.
fn known(alloc: Global, texts: Vec<OperatorText>) -> Result<Vec<KnownOperator>, AllocError>
    ensures { IfOk result (λ operators. operators.items ≡ texts.items) }
{
    let mut operators = Vec::new(alloc);
    for text in texts {
        operators.push(KnownOperator::of(alloc, text)?)?;
    }
    Ok(operators)
}
