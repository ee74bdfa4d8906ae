//! Specs of controllers.
ghost use Rattle.std.specs.Prelude.{◌≡◌};
ghost use Rattle.np_json.specs.Prelude.{Gives};
ghost use Rattle.serde_json.specs.View.{view};
ghost use Rattle.np_objects.specs.Controllers as controllers;

use crate::controller::{ControllerKind, Template};
use crate::template::TemplateShape;
use np_json::{Shape, ShapeFault, Whole, must_be_object, optional};
use serde_json::Value;
use std::alloc::Global;

/// What is read of the spec of a controller.
#[derive(Drop)]
pub(crate) struct ControllerSpec {
    /// Whether `spec.replicas` is 0. It is false of a DaemonSet, a Job and a CronJob, even where a Job is complete or
    /// suspended.
    pub(crate) none_wanted: bool,
    pub(crate) template: Option<Template>,
}

impl ControllerSpec {
    ghost use Rattle.np_objects.specs.Controllers.{no_spec};

    /// That of a controller without a spec.
    pub(crate) fn none() -> ControllerSpec
        ensures { result ≡ no_spec }
    {
        ControllerSpec {
            none_wanted: false,
            template: None,
        }
    }
}

/// The spec of a controller that is told how many pods are wanted (Kubernetes API reference, DeploymentSpec,
/// ReplicaSetSpec, StatefulSetSpec and ReplicationControllerSpec).
///
/// | member | what it is |
/// |---|---|
/// | `replicas` | a whole number |
/// | `template` | the template of a pod |
#[derive(Drop)]
struct ReplicatedSpecShape;

impl Shape for ReplicatedSpecShape {
    ghost use Rattle.np_objects.specs.Controllers.{replicated_spec};

    type Output = ControllerSpec;

    ghost reads = { λ _. replicated_spec };

    #[tactic(auto, unfolding(crate::specs::Controllers::replicated_spec))]
    fn read(&self, alloc: Global, value: &Value) -> Result<ControllerSpec, ShapeFault> {
        must_be_object(alloc, value)?;
        let replicas = optional(alloc, value, "replicas", &Whole)?;
        let template = optional(alloc, value, "template", &TemplateShape)?;
        Ok(ControllerSpec {
            none_wanted: is_zero(replicas),
            template,
        })
    }
}

/// The spec of a controller of which the template alone is read (Kubernetes API reference, DaemonSetSpec and
/// JobSpec).
///
/// | member | what it is |
/// |---|---|
/// | `template` | the template of a pod |
#[derive(Drop)]
struct TemplateSpecShape;

impl Shape for TemplateSpecShape {
    ghost use Rattle.np_objects.specs.Controllers.{template_spec};

    type Output = ControllerSpec;

    ghost reads = { λ _. template_spec };

    #[tactic(auto, unfolding(crate::specs::Controllers::template_spec))]
    fn read(&self, alloc: Global, value: &Value) -> Result<ControllerSpec, ShapeFault> {
        must_be_object(alloc, value)?;
        let template = optional(alloc, value, "template", &TemplateShape)?;
        Ok(ControllerSpec {
            none_wanted: false,
            template,
        })
    }
}

/// The template of a job (Kubernetes API reference, JobTemplateSpec).
///
/// | member | what it is |
/// |---|---|
/// | `spec` | the spec of a job |
#[derive(Drop)]
struct JobTemplateShape;

impl Shape for JobTemplateShape {
    ghost use Rattle.np_objects.specs.Controllers.{job_template};

    type Output = ControllerSpec;

    ghost reads = { λ _. job_template };

    #[tactic(auto, unfolding(crate::specs::Controllers::job_template))]
    fn read(&self, alloc: Global, value: &Value) -> Result<ControllerSpec, ShapeFault> {
        must_be_object(alloc, value)?;
        let spec = optional(alloc, value, "spec", &TemplateSpecShape)?;
        Ok(spec.unwrap_or(ControllerSpec::none()))
    }
}

/// The spec of a controller of jobs (Kubernetes API reference, CronJobSpec).
///
/// | member | what it is |
/// |---|---|
/// | `jobTemplate` | the template of a job |
#[derive(Drop)]
struct CronJobSpecShape;

impl Shape for CronJobSpecShape {
    ghost use Rattle.np_objects.specs.Controllers.{cron_job_spec};

    type Output = ControllerSpec;

    ghost reads = { λ _. cron_job_spec };

    #[tactic(auto, unfolding(crate::specs::Controllers::cron_job_spec))]
    fn read(&self, alloc: Global, value: &Value) -> Result<ControllerSpec, ShapeFault> {
        must_be_object(alloc, value)?;
        let job = optional(alloc, value, "jobTemplate", &JobTemplateShape)?;
        Ok(job.unwrap_or(ControllerSpec::none()))
    }
}

/// The spec of a controller of that kind.
#[derive(Drop)]
pub(crate) struct ControllerSpecShape {
    pub(crate) kind: ControllerKind,
}

impl Shape for ControllerSpecShape {
    ghost use Rattle.np_objects.specs.Controllers.{controller_spec};

    type Output = ControllerSpec;

    ghost reads = { λ shape. controller_spec shape.kind };

    fn read(&self, alloc: Global, value: &Value) -> Result<ControllerSpec, ShapeFault> {
        match self.kind {
            ControllerKind::Deployment
            | ControllerKind::ReplicaSet
            | ControllerKind::StatefulSet
            | ControllerKind::ReplicationController => ReplicatedSpecShape.read(alloc, value),
            ControllerKind::DaemonSet | ControllerKind::Job => TemplateSpecShape.read(alloc, value),
            ControllerKind::CronJob => CronJobSpecShape.read(alloc, value),
        }
    }
}

/// Whether there is a number, and it is 0.
pub(crate) fn is_zero(number: Option<i64>) -> bool
    ensures { result ≡ controllers.is_zero number }
{
    matches!(number, Some(0))
}
