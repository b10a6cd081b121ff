// The definitions compute, where they turn: each as the contract of a function that does nothing.
ghost use Rattle.std.specs.Prelude.{◌≡◌, ◌∷◌, [], Some, None, map, true, false, codes};
ghost use Rattle.ce_base.specs.declared.fault.Fault.TheVariants.{NotSupportedError};
ghost use Rattle.form_controls.specs.declared.value.Value.TheVariants.{Nothing, One};
ghost use Rattle.form_controls.specs.Owners.{controls_of, form_owner};
ghost use Rattle.form_controls.specs.Disabled.{is_disabled};
ghost use Rattle.form_controls.specs.Checkedness.{is_checked};
ghost use Rattle.form_controls.specs.Options.{chosen, is_selected};
ghost use Rattle.form_controls.specs.Values.{units, value};
ghost use Rattle.form_controls.specs.Controls.{set_value};
ghost use Rattle.form_controls.specs.Setting.{is_choice_ignored, set_checked, set_chosen};
ghost use Rattle.form_controls.specs.Internals.{delete_state, kept_by, may_attach, no_flags, state_or};
ghost use Rattle.form_controls.specs.Barred.{will_validate};
ghost use Rattle.form_controls.specs.Validity.{flags, limit_in};
ghost use Rattle.form_controls.specs.Worked.Controls as controls;
ghost use Rattle.form_controls.specs.Worked.Corners as corners;
ghost use Rattle.form_controls.specs.Worked.Kept as kept;
ghost use Rattle.form_controls.specs.Worked.Owners.{apart};
ghost use Rattle.form_controls.specs.Worked.Told.{with_forest};
ghost use Rattle.form_controls.specs.Worked.Validity as validity;

/// The definitions compute: the nearest form owns, and a `disabled` attribute of a form disables nothing; a fieldset is a control
/// of its form.
pub fn worked_nesting()
    ensures nearest { form_owner (with_forest [] corners.nested) 6 ≡ Some 4 }
    ensures not_disabled { is_disabled (with_forest [] corners.nested) 6 ≡ false }
    ensures controls { controls_of (with_forest (5 ∷ []) apart) 4 ≡ 6 ∷ 5 ∷ [] }
{}

/// The definitions compute: values and flags of controls of many kinds, as they are set, cloned and reset.
pub fn worked_kinds()
    ensures at_first { map (value [] corners.kinds) (3 ∷ 4 ∷ 5 ∷ 7 ∷ []) ≡ codes "v" ∷ codes "v" ∷ codes "on" ∷ [] ∷ [] }
    ensures set { map (value corners.kinds_set corners.kinds) (3 ∷ 4 ∷ 7 ∷ []) ≡ codes "w" ∷ codes "v" ∷ codes "z" ∷ [] }
    ensures no_newlines { value (set_value [] 3 (97 ∷ 13 ∷ 10 ∷ 98 ∷ 10 ∷ []) false) corners.kinds 3 ≡ codes "ab" }
    ensures units { units kept.typed corners.kinds 3 ≡ 2 }
    ensures not_edited { flags corners.kinds_forms [] [] 3 ≡ no_flags }
    ensures edited { flags corners.kinds_forms corners.kinds_set [] 3 ≡ corners.short_with_message }
    ensures emptied { flags corners.kinds_forms corners.kinds_emptied [] 3 ≡ corners.message_alone }
    ensures hidden { flags corners.kinds_forms corners.kinds_set [] 4 ≡ no_flags }
    ensures checkbox { flags corners.kinds_forms corners.kinds_set [] 5 ≡ no_flags }
    ensures candidates { map (will_validate corners.kinds_forms) (3 ∷ 4 ∷ 5 ∷ 6 ∷ []) ≡ true ∷ false ∷ true ∷ false ∷ [] }
    ensures reset { map (value corners.kinds_reset corners.kinds) (3 ∷ 7 ∷ []) ≡ codes "v" ∷ [] ∷ [] }
    ensures reset_flags { flags corners.kinds_forms corners.kinds_reset [] 3 ≡ corners.message_alone }
    ensures chosen { chosen corners.kinds_set corners.kinds 8 ≡ 10 ∷ [] }
    ensures reset_options { chosen corners.kinds_reset corners.kinds 8 ≡ 9 ∷ [] }
    ensures cloned { value corners.kinds_cloned corners.kinds 7 ≡ codes "w" }
    ensures cloned_flags { flags corners.kinds_forms corners.kinds_cloned [] 7 ≡ no_flags }
    ensures cloned_option { is_selected corners.kinds_cloned corners.kinds 9 ≡ false }
{}

/// The definitions compute: which radio buttons are of one group, and what a group lacks.
pub fn worked_groups()
    ensures each_alone { map (is_checked (with_forest [] corners.groups) []) (4 ∷ 5 ∷ 6 ∷ 7 ∷ 9 ∷ 10 ∷ []) ≡ true ∷ true ∷ true ∷ true ∷ true ∷ true ∷ [] }
    ensures set_off { is_checked kept.radio_forms (set_checked kept.radio_forms kept.cloned 5 false) 4 ≡ true }
    ensures value { value [] controls.radios 4 ≡ codes "on" }
    ensures missing { map (flags (with_forest [] corners.required_group) [] []) (3 ∷ 4 ∷ []) ≡ kept.missing ∷ kept.missing ∷ [] }
{}

/// The definitions compute: options in groups, in a disabled select, and where several can be chosen.
pub fn worked_selects()
    ensures no_placeholder { flags (with_forest [] corners.grouped_option) [] [] 2 ≡ no_flags }
    ensures several { flags (with_forest [] controls.many_options) (set_chosen [] controls.many_options 3 true) [] 2 ≡ no_flags }
    ensures not_disabled { is_disabled (with_forest [] controls.disabled_options) 3 ≡ false }
    ensures no_choice { is_choice_ignored (with_forest [] controls.disabled_options) 3 ≡ true }
{}

/// The definitions compute: limits of lengths.
pub fn worked_limits()
    ensures digits { limit_in (Some (codes "000000003")) ≡ Some 3 }
    ensures long { limit_in (Some (codes "0000000003")) ≡ None }
    ensures empty { limit_in (Some []) ≡ None }
    ensures space { limit_in (Some (codes " 3")) ≡ None }
    ensures letters { limit_in (Some (codes "3px")) ≡ None }
{}

/// The definitions compute: each test of internals that are wanted, and what they keep.
pub fn worked_states()
    ensures extends { may_attach [] 3 (record kept.custom { has_is = true }) ≡ Some NotSupportedError }
    ensures off { may_attach [] 3 (record kept.custom { off = true }) ≡ Some NotSupportedError }
    ensures not_ready { may_attach [] 3 (record kept.custom { ready = false }) ≡ Some NotSupportedError }
    ensures value { (kept_by corners.stated 3).value ≡ One (codes "v") }
    ensures saved { (kept_by corners.stated 3).saved ≡ One (codes "s") }
    ensures left_out { state_or (One (codes "v")) None ≡ One (codes "v") }
    ensures none { (kept_by [] 3).value ≡ Nothing }
    ensures flags { flags (with_forest (3 ∷ []) validity.required) [] kept.raised 3 ≡ kept.missing_and_long }
    ensures unheard { (kept_by corners.flagged_and_cleared 3).message ≡ [] }
    ensures once { (kept_by corners.two_words 3).states ≡ codes "a" ∷ codes "b" ∷ [] }
    ensures deleted { (kept_by (delete_state corners.two_words 3 (codes "a")) 3).states ≡ codes "b" ∷ [] }
{}
