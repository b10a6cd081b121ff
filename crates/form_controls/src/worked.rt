// The definitions compute: pages worked through, each as the contract of a function that does nothing.
ghost use Rattle.std.specs.Prelude.{◌≡◌, ◌∷◌, [], Some, None, true, false, codes};
ghost use Rattle.ce_base.specs.declared.fault.Fault.TheVariants.{NotSupportedError, TypeError};
ghost use Rattle.form_controls.specs.Owners.{form_owner};
ghost use Rattle.form_controls.specs.Disabled.{is_disabled};
ghost use Rattle.form_controls.specs.Controls.{set_value};
ghost use Rattle.form_controls.specs.Checkedness.{is_checked};
ghost use Rattle.form_controls.specs.Values.{value};
ghost use Rattle.form_controls.specs.Options.{chosen, options_of};
ghost use Rattle.form_controls.specs.Setting.{is_choice_ignored, is_edit_ignored, set_chosen};
ghost use Rattle.form_controls.specs.Internals.{kept_by, may_attach, may_set_validity, may_write, no_flags};
ghost use Rattle.form_controls.specs.Barred.{will_validate};
ghost use Rattle.form_controls.specs.Validity.{flags, invalid_controls, message_of};
ghost use Rattle.form_controls.specs.Worked.Controls as controls;
ghost use Rattle.form_controls.specs.Worked.Invalid as invalid;
ghost use Rattle.form_controls.specs.Worked.Kept as kept;
ghost use Rattle.form_controls.specs.Worked.Legends.{in_shadow, last, legends};
ghost use Rattle.form_controls.specs.Worked.Owners.{apart, ids, moves, named};
ghost use Rattle.form_controls.specs.Worked.Told.{disabled_is, owner_is, told_along, with_forest};
ghost use Rattle.form_controls.specs.Worked.Validity as validity;

/// The definitions compute: form owners by the `form` attribute, and by what is above an element.
pub fn worked_owners()
    ensures ids { told_along (4 ∷ []) ids
        ≡ owner_is 4 (Some 3) ∷ owner_is 4 None ∷ [] ∷ [] ∷ owner_is 4 (Some 5) ∷ [] ∷ [] ∷ owner_is 4 None
        ∷ owner_is 4 (Some 5) ∷ owner_is 4 None ∷ owner_is 4 (Some 3) ∷ [] ∷ [] }
    ensures moves { told_along (5 ∷ []) moves
        ≡ [] ∷ owner_is 5 (Some 4) ∷ owner_is 5 None ∷ [] ∷ [] ∷ [] ∷ owner_is 5 (Some 4) ∷ [] ∷ owner_is 5 None
        ∷ owner_is 5 (Some 4) ∷ [] ∷ [] ∷ [] ∷ owner_is 5 None
        ∷ (record { node = 5; owner = Some (Some 4); disabled = Some true } ∷ []) ∷ [] ∷ [] }
    ensures named { form_owner (with_forest (4 ∷ []) named) 4 ≡ None }
    ensures apart { form_owner (with_forest (5 ∷ []) apart) 5 ≡ Some 4 }
    ensures in_shadow { form_owner (with_forest [] in_shadow) 7 ≡ None }
{}

/// The definitions compute: elements that a fieldset disables, but for its first legend.
pub fn worked_disabled()
    ensures legends { told_along (5 ∷ []) legends
        ≡ [] ∷ [] ∷ [] ∷ disabled_is 5 true ∷ disabled_is 5 false ∷ [] ∷ [] ∷ [] ∷ [] ∷ disabled_is 5 true ∷ [] }
    ensures last { is_disabled (with_forest (5 ∷ []) last) 5 ≡ true }
    ensures apart { is_disabled (with_forest (5 ∷ []) apart) 5 ≡ true }
    ensures in_shadow { is_disabled (with_forest [] in_shadow) 7 ≡ false }
{}

/// The definitions compute: radio buttons that are cloned, set on and reset, and the values of a textarea and a
/// select.
pub fn worked_controls()
    ensures first_is_off { is_checked kept.radio_forms kept.cloned 4 ≡ false }
    ensures second_is_on { is_checked kept.radio_forms kept.cloned 5 ≡ true }
    ensures second_goes_off { is_checked kept.radio_forms kept.first_on 5 ≡ false }
    ensures second_comes_back { is_checked kept.radio_forms kept.reset_again 5 ≡ true }
    ensures text_area { value [] controls.text_area 6 ≡ 97 ∷ 10 ∷ 98 ∷ 10 ∷ 99 ∷ [] }
    ensures no_edit { is_edit_ignored (with_forest [] controls.disabled_text_area) 6 ≡ true }
    ensures written { value (set_value [] 6 (codes "z") false) controls.disabled_text_area 6 ≡ codes "z" }
    ensures select { value [] controls.select 8 ≡ codes "two words" }
{}

/// The definitions compute: the options of a select, as they are chosen.
pub fn worked_options()
    ensures options { options_of controls.one_option 2 ≡ 3 ∷ 5 ∷ 6 ∷ [] }
    ensures disabled { is_disabled (with_forest [] controls.one_option) 5 ≡ true }
    ensures selected { chosen [] controls.one_option 2 ≡ 5 ∷ [] }
    ensures another { chosen (set_chosen [] controls.one_option 6 true) controls.one_option 2 ≡ 6 ∷ [] }
    ensures none { chosen kept.none_chosen controls.one_option 2 ≡ 3 ∷ [] }
    ensures placeholder { flags (with_forest [] controls.one_option) kept.none_chosen [] 2 ≡ kept.missing }
    ensures both { chosen kept.both_chosen controls.many_options 2 ≡ 5 ∷ 6 ∷ [] }
    ensures first_is_sent { value kept.both_chosen controls.many_options 2 ≡ codes "a" }
    ensures nothing_chosen { flags (with_forest [] controls.many_options) kept.none_chosen [] 2 ≡ kept.missing }
    ensures no_choice { is_choice_ignored (with_forest [] controls.one_option) 5 ≡ true }
{}

/// The definitions compute: what internals refuse, and what they keep.
pub fn worked_internals()
    ensures not_custom { may_attach [] 2 kept.undefined ≡ Some NotSupportedError }
    ensures before { may_write [] 3 true ≡ Some TypeError }
    ensures first { may_attach [] 3 kept.custom ≡ None }
    ensures second { may_attach kept.attached 3 kept.custom ≡ Some NotSupportedError }
    ensures no_message { may_set_validity kept.attached 3 true kept.missing [] ≡ Some TypeError }
    ensures message { may_set_validity kept.attached 3 true kept.missing_and_long (codes "fill in") ≡ None }
    ensures flags { (kept_by kept.raised 3).flags ≡ kept.missing_and_long }
    ensures message_kept { (kept_by kept.raised 3).message ≡ codes "fill in" }
    ensures no_flag { may_set_validity kept.raised 3 true no_flags [] ≡ None }
    ensures flags_lowered { (kept_by kept.lowered 3).flags ≡ no_flags }
    ensures states { (kept_by kept.with_word 3).states ≡ codes "hi" ∷ [] }
    ensures other { may_attach kept.with_word 4 kept.custom ≡ None }
    ensures not_associated { may_write kept.both 4 false ≡ Some NotSupportedError }
{}

/// The definitions compute: the flags of an input, as the user and a script set it and its attributes change.
pub fn worked_validity()
    ensures missing { flags (with_forest [] validity.required) [] [] 3 ≡ kept.missing }
    ensures short { flags (with_forest [] validity.with_minimum) kept.typed [] 3 ≡ kept.short }
    ensures short_and_long { flags (with_forest [] validity.with_both) kept.typed [] 3 ≡ kept.short_and_long }
    ensures by_script { flags (with_forest [] validity.with_both) kept.written [] 3 ≡ no_flags }
    ensures objected { flags (with_forest [] validity.with_both) kept.objected [] 3 ≡ kept.objection }
    ensures message { message_of (with_forest [] validity.with_both) kept.objected [] 3 ≡ codes "no good" }
    ensures readonly { will_validate (with_forest [] validity.readonly) 3 ≡ false }
    ensures flag_stays { flags (with_forest [] validity.readonly) kept.objected [] 3 ≡ kept.objection }
{}

/// The definitions compute: which controls of a form are invalid, where some are barred.
pub fn worked_invalid_controls()
    ensures invalid { invalid_controls (with_forest [] invalid.barred) kept.two_letters [] 3 ≡ 4 ∷ 9 ∷ [] }
    ensures mended { invalid_controls (with_forest [] invalid.unchecked) kept.three_letters [] 3 ≡ [] }
{}
